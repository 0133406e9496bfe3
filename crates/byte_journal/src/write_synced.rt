//! A write and the sync that makes it durable.

ghost use Rattle.std.specs.Prelude.{◌≡◌, ◌≢◌, ℕ, List, ◌<◌, ◌≤◌, length, OnOk, IsErrOf};
ghost use Rattle.ale_volumes.specs.Volume.{settled, overwritten, Torn};
ghost use Rattle.ale_volumes.specs.Clock.{LeavesOnly, KeepsOthers};
ghost use Rattle.ale_volumes.specs.Faults.{CountsFault};

use ale_volumes::{VolumeEnd, Volumes};

/// Writes bytes to a volume that is settled, and syncs it: then it is settled again.
pub(crate) fn write_synced<V: Volumes>(
    vols: &mut V,
    n: u8,
    at: u64,
    bytes: &[u8],
) -> Result<(), VolumeEnd>
    requires number { n < 16 }
    requires place { V.disk.told → at ≤ length (V.disk.volume vols.old n).contents }
    ensures written { V.disk.told → OnOk result
        (V.disk.volume vols.new n ≡ settled (overwritten (V.disk.volume vols.old n).contents at bytes.now)) }
    // However it ended, a read gives what it gave, torn at this length at most.
    ensures torn { V.disk.told →
        Torn at (length bytes.now) (V.disk.volume vols.old n).contents (V.disk.volume vols.new n).contents }
    ensures no_memory { V.disk.told → IsErrOf result VolumeEnd.OutOfMemory → V.disk.volume vols.new n ≡ V.disk.volume vols.old n }

    // At any moment a crash leaves what was there, torn at this length at most.
    ensures any_moment { V.disk.told → V.disk.volume vols.old n ≡ settled (V.disk.volume vols.old n).contents →
        LeavesOnly V.disk vols.old vols.new n
        (Torn at (length bytes.now) (V.disk.volume vols.old n).contents) }
    ensures others { V.disk.told → KeepsOthers V.disk vols.old vols.new n }

    ensures faults { CountsFault (IsErrOf result VolumeEnd.Failed) (V.disk.faults vols.old) (V.disk.faults vols.new) n }
{
    vols.write_at(n, at, bytes)?;
    vols.sync(n)?;
    Ok(())
}

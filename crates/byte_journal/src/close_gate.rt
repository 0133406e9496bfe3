//! Closing the last gate of a log.

ghost use Rattle.std.specs.Prelude.{◌≡◌, ◌≢◌, ◌↔◌, ℕ, List, ◌<◌, length, slice_index, OnOk, IsErrOf, IsTrue};
ghost use Rattle.ale_volumes.specs.Volume.{settled};
ghost use Rattle.ale_volumes.specs.Clock.{LeavesOnly, KeepsOthers};
ghost use Rattle.ale_volumes.specs.Faults.{CountsFault};
ghost use Rattle.byte_journal.specs.Log.{Stands, open_gate, front_of};
ghost use Rattle.byte_journal.specs.steps.Reading.{ReadsTo};
ghost use Rattle.byte_journal.specs.steps.Closing.{LeavesClosed};
ghost use Rattle.byte_journal.specs.Settled.{IsClosed};

use crate::Journal;
use crate::write_synced::write_synced;
use ale_volumes::{VolumeEnd, Volumes};

/// Closes the last gate of a log, where it isn't closed, on a volume that holds for good what begins with these bytes.
pub(crate) fn close_gate<V: Volumes>(
    vols: &mut V,
    n: u8,
    bytes: &[u8],
    gate: usize,
) -> Result<(), VolumeEnd>
    requires number { n < 16 }
    requires reads { (log : List (List ℕ)) × ReadsTo bytes.now log gate }
    requires front { V.disk.told → bytes.now ≡ front_of (V.disk.volume vols.old n).contents }
    requires held { V.disk.told → V.disk.volume vols.old n ≡ settled (V.disk.volume vols.old n).contents }
    ensures closed { V.disk.told → (log : List (List ℕ)) → ReadsTo bytes.now log gate →
        OnOk result (IsClosed (V.disk.volume vols.new n).contents log) }
    ensures durable { V.disk.told → OnOk result (V.disk.volume vols.new n ≡ settled (V.disk.volume vols.new n).contents) }
    ensures leaves { V.disk.told → LeavesClosed (V.disk.volume vols.old n) (V.disk.volume vols.new n) result }
    ensures any_moment { V.disk.told → (log : List (List ℕ)) → ReadsTo bytes.now log gate →
        LeavesOnly V.disk vols.old vols.new n (λ image. Stands image log) }
    ensures others { V.disk.told → KeepsOthers V.disk vols.old vols.new n }
    ensures faults { CountsFault (IsErrOf result VolumeEnd.Failed) (V.disk.faults vols.old) (V.disk.faults vols.new) n }
{
    if is_closed(bytes, gate) {
        return Ok(());
    }
    write_synced(vols, n, gate as u64, &[Journal::CLOSED_GATE])
}

/// Whether a closed gate stands at the place.
fn is_closed(bytes: &[u8], gate: usize) -> bool
    ensures { IsTrue result ↔ ((gate < length bytes.now) × (slice_index bytes.now gate ≢ open_gate)) }
{
    gate < bytes.len() && bytes[gate] != Journal::OPEN_GATE
}

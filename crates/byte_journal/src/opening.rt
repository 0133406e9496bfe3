//! Opening a journal, whatever a crash left on its volume.

ghost use Rattle.std.specs.Prelude.{◌≡◌, ◌≢◌, ℕ, List, ◌<◌, IfOk, IsErrOf};
ghost use Rattle.ale_volumes.specs.Volume.{IsImage, settled};
ghost use Rattle.ale_volumes.specs.Clock.{LeavesOnly, KeepsOthers};
ghost use Rattle.ale_volumes.specs.Faults.{CountsFault};
ghost use Rattle.byte_journal.specs.Log.{Stands, ReadsAs, HasOneAnswer};
ghost use Rattle.byte_journal.specs.Bytes.{LeavesOpened};
ghost use Rattle.byte_journal.specs.Settled.{Answers, IsSettled, IsOn, IsLeftByOpening, LeavesOnlyFromSync};

use crate::close_gate::close_gate;
use crate::read_durable::read_durable;
use crate::read_log::read_log;
use crate::{Journal, OpenFault};
use ale_base::Items;
use ale_volumes::Volumes;
use std::alloc::Global;

/// Opens the journal on volume `n`, whatever a crash left there, and gives the bodies of its log, oldest first.
///
/// It begins by a sync, so that what it reads is on the disk for good, and reads the first 67,108,865 bytes at most,
/// which alone decide the log. Where the volume is empty or its last byte is an open gate that ends the log, it writes a
/// closed gate there and syncs again. `Damaged` comes where the bytes stand for no log, and names the first place where
/// they don't; then nothing was written.
pub fn open<V: Volumes>(
    alloc: Global,
    vols: &mut V,
    n: u8,
) -> Result<(Journal, Items<Items<u8>>), OpenFault>
    requires { n < 16 }

    // The log that the bytes stand for, or the place of the damage.
    ensures read { V.disk.told → Answers (V.disk.volume vols.old n).contents result }
    ensures settled { V.disk.told → IfOk result (λ opened. IsSettled V.disk vols.new opened.0 opened.1) }
    ensures durable { V.disk.told → IfOk result (λ opened.
        (image : List ℕ) → IsImage (V.disk.volume vols.new n) image → Stands image opened.1) }
    ensures one_answer { (bytes : List ℕ) → HasOneAnswer bytes }
    ensures at_end { IfOk result (λ opened. IsOn opened.0 n opened.1) }

    // What a read gives is as before, but for a gate that was closed.
    ensures leaves { V.disk.told → LeavesOpened (V.disk.volume vols.old n) (V.disk.volume vols.new n) result }

    // A crash at any moment of the call leaves what was handed in, or what reads as it; from some moment on only the latter.
    ensures any_moment { V.disk.told → LeavesOnly V.disk vols.old vols.new n
        (IsLeftByOpening (V.disk.volume vols.old n)) }
    ensures from_sync { V.disk.told → LeavesOnlyFromSync V.disk vols.old vols.new n
        (IsErrOf result OpenFault.Volume) (ReadsAs (V.disk.volume vols.old n).contents) }
    ensures others { V.disk.told → KeepsOthers V.disk vols.old vols.new n }

    ensures faults { CountsFault (IsErrOf result OpenFault.Volume) (V.disk.faults vols.old) (V.disk.faults vols.new) n }
{
    let bytes = read_durable(alloc, vols, n)?;
    let (log, gate) = read_log(alloc, &bytes)?;
    close_gate(vols, n, &bytes, gate)?;
    Ok((Journal::at(alloc, n, gate as u64), log))
}

//! Opening a journal of entries, whatever a crash left on its volume.

ghost use Rattle.std.specs.Prelude.{◌≡◌, ℕ, List, ◌<◌, IfOk, IsErrOf};
ghost use Rattle.ale_volumes.specs.Volume.{IsImage};
ghost use Rattle.ale_volumes.specs.Clock.{LeavesOnly, KeepsOthers};
ghost use Rattle.ale_volumes.specs.Faults.{CountsFault};
ghost use Rattle.byte_journal.specs.Log.{ReadsAs};
ghost use Rattle.byte_journal.specs.Settled.{IsLeftByOpening, LeavesOnlyFromSync};
ghost use Rattle.unit_journal.specs.Log.{Stands, HasOneAnswer};
ghost use Rattle.unit_journal.specs.Settled.{Answers, IsSettled, IsOn, LeavesOpened};

use crate::entries::read_entries;
use crate::{LogFault, UnitJournal};
use ale_base::Items;
use ale_volumes::Volumes;
use std::alloc::Global;
use unit_codec::Entry;

/// Opens the journal on volume `n`, whatever a crash left there, and gives the entries of its log, oldest first.
///
/// `Damaged` comes where the bytes stand for no log of bodies, and then nothing was written. `Unread` comes where they
/// do and a body spells no entry; it names the first one, counted from 1. Then the last gate may have been closed.
pub fn open<V: Volumes>(
    alloc: Global,
    vols: &mut V,
    n: u8,
) -> Result<(UnitJournal, Items<Entry>), LogFault>
    requires { n < 16 }

    // The entries that the bytes stand for, the place of the damage, or the number of the first record that is none.
    ensures read { V.disk.told → Answers (V.disk.volume vols.old n).contents result }
    ensures settled { V.disk.told → IfOk result (λ opened. IsSettled V.disk vols.new opened.0 opened.1) }
    ensures durable { V.disk.told → IfOk result (λ opened.
        (image : List ℕ) → IsImage (V.disk.volume vols.new n) image → Stands image opened.1) }
    ensures one_answer { (bytes : List ℕ) → HasOneAnswer bytes }
    ensures at_end { IfOk result (λ opened. IsOn opened.0 n opened.1) }

    // What a read gives is as before, but for a gate that was closed.
    ensures leaves { V.disk.told → LeavesOpened (V.disk.volume vols.old n) (V.disk.volume vols.new n) result }

    // A crash at any moment of the call leaves what was handed in, or what reads as it; from some moment on only the latter.
    ensures any_moment { V.disk.told → LeavesOnly V.disk vols.old vols.new n
        (IsLeftByOpening (V.disk.volume vols.old n)) }
    ensures from_sync { V.disk.told → LeavesOnlyFromSync V.disk vols.old vols.new n
        (IsErrOf result LogFault.Volume) (ReadsAs (V.disk.volume vols.old n).contents) }
    ensures others { V.disk.told → KeepsOthers V.disk vols.old vols.new n }

    ensures faults { CountsFault (IsErrOf result LogFault.Volume) (V.disk.faults vols.old) (V.disk.faults vols.new) n }
{
    let (journal, bodies) = byte_journal::open(alloc, vols, n)?;
    let entries = read_entries(alloc, bodies.as_slice())?;
    Ok((UnitJournal::over(alloc, journal), entries))
}

//! The opening of one volume: its journal, the moments of its entries, and its records.

ghost use Rattle.std.specs.Prelude.{◌≡◌, ℕ, ◌<◌, length, IfOk, IsErrOf};
ghost use Rattle.ale_volumes.specs.Clock.{LeavesOnly, KeepsOthers};
ghost use Rattle.ale_volumes.specs.Faults.{CountsFault};
ghost use Rattle.byte_journal.specs.Log.{ReadsAs};
ghost use Rattle.byte_journal.specs.Settled.{IsLeftByOpening, LeavesOnlyFromSync};
ghost use Rattle.unit_journal.specs.Settled.{Answers};
ghost use Rattle.unit_journal.specs.OnDisk.{entries_of};
ghost use Rattle.unit_journal.specs.Opening.{LeavesOpened};
ghost use Rattle.unit_journal.specs.steps.Opened.{IsOpened, IsOf, entries_in, log_in};

use crate::{LogFault, UnitJournal};
use ale_base::{Items, OutOfMemory};
use ale_volumes::Volumes;
use std::alloc::Global;
use unit_codec::Entry;
use unit_core::Record;

/// What a volume gave: its journal, and of each entry the moment and the record, oldest first.
#[derive(Drop)]
pub(crate) struct Opened {
    pub(crate) journal: UnitJournal,
    pub(crate) moments: Items<Option<u64>>,
    pub(crate) log: Items<Record>,
}

/// Opens volume `n`, whatever a crash left there.
pub(crate) fn open_volume<V: Volumes>(
    alloc: Global,
    vols: &mut V,
    n: u8,
) -> Result<Opened, LogFault>
    requires { n < 16 }
    ensures read { V.disk.told → Answers (V.disk.volume vols.old n).contents (entries_in result) }
    ensures opened { IfOk result (λ opened. IsOpened V.disk vols.new n opened) }
    ensures leaves { V.disk.told → LeavesOpened (V.disk.volume vols.old n) (V.disk.volume vols.new n) (log_in result) }
    ensures any_moment { V.disk.told → LeavesOnly V.disk vols.old vols.new n
        (IsLeftByOpening (V.disk.volume vols.old n)) }
    ensures from_sync { V.disk.told → LeavesOnlyFromSync V.disk vols.old vols.new n
        (IsErrOf result LogFault.Volume) (ReadsAs (V.disk.volume vols.old n).contents) }
    ensures others { V.disk.told → KeepsOthers V.disk vols.old vols.new n }
    ensures faults { CountsFault (IsErrOf result LogFault.Volume) (V.disk.faults vols.old) (V.disk.faults vols.new) n }
{
    let (journal, entries) = crate::open(alloc, vols, n)?;
    Ok(with_entries(alloc, journal, entries)?)
}

/// A journal with the moments and the records of its entries.
fn with_entries(
    alloc: Global,
    journal: UnitJournal,
    entries: Items<Entry>,
) -> Result<Opened, OutOfMemory>
    ensures { IfOk result (λ opened. IsOf journal entries opened) }
{
    let (moments, log) = parted(alloc, entries)?;
    Ok(Opened {
        journal,
        moments,
        log,
    })
}

/// The moments of entries, and their records.
pub(crate) fn parted(
    alloc: Global,
    entries: Items<Entry>,
) -> Result<(Items<Option<u64>>, Items<Record>), OutOfMemory>
    ensures { IfOk result (λ parted. (length parted.0 ≡ length parted.1) × (entries_of parted.0 parted.1 ≡ entries)) }
{
    let mut moments = Items::new(alloc);
    let mut log = Items::new(alloc);
    for entry in entries.into_vec() {
        let Entry { moment, what } = entry;
        moments.push(moment)?;
        log.push(what)?;
    }
    Ok((moments, log))
}

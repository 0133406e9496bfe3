//! The next system of those that are opened: its volume, then its place in the world and its tables.

ghost use Rattle.std.specs.Prelude.{◌≡◌, ◌<◌, ◌++◌, ◌∷◌, [], IfOk, OnOk, IsErrOf};
ghost use Rattle.ale_volumes.specs.Clock.{LeavesOnly, KeepsOthers};
ghost use Rattle.ale_volumes.specs.Faults.{CountsFault};
ghost use Rattle.byte_journal.specs.Log.{ReadsAs};
ghost use Rattle.byte_journal.specs.Settled.{IsLeftByOpening, LeavesOnlyFromSync};
ghost use Rattle.unit_journal.specs.OnDisk.{count_of, HaveMoments, IsOnDisk};
ghost use Rattle.unit_journal.specs.Changes.{IsNext};
ghost use Rattle.unit_landscape.specs.Opening.{with_log, LeavesOpened};
ghost use Rattle.unit_landscape.specs.Volumes.{LogAs};

use super::OpenFault;
use crate::WorldTables;
use ale_base::{Items, OutOfMemory};
use ale_volumes::Volumes;
use std::alloc::Global;
use system_tables::{Application, SystemTables};
use trfc_protocol::{Rules, SystemState};
use unit_core::Record;
use unit_journal::SystemJournals;

/// Opens the volume of the next system, whatever log it holds, and gives its records.
pub(crate) fn open_log<V: Volumes>(
    journals: &mut SystemJournals,
    vols: &mut V,
) -> Result<Items<Record>, OpenFault>
    requires room { count_of journals.old < 16 }
    requires moments { HaveMoments journals.old }
    ensures opened { IfOk result (λ log. IsOnDisk V.disk vols.new (count_of journals.old) journals.new log) }
    ensures next { OnOk result (IsNext journals.old journals.new) }
    ensures why { V.disk.told → LogAs (V.disk.volume vols.old (count_of journals.old)).contents journals.new (count_of journals.old) result }
    ensures leaves { V.disk.told → LeavesOpened (V.disk.volume vols.old (count_of journals.old)) (V.disk.volume vols.new (count_of journals.old)) result }
    ensures any_moment { V.disk.told → LeavesOnly V.disk vols.old vols.new (count_of journals.old)
        (IsLeftByOpening (V.disk.volume vols.old (count_of journals.old))) }
    ensures from_sync { V.disk.told → LeavesOnlyFromSync V.disk vols.old vols.new (count_of journals.old)
        (IsErrOf result OpenFault.Volume) (ReadsAs (V.disk.volume vols.old (count_of journals.old)).contents) }
    ensures others { V.disk.told → KeepsOthers V.disk vols.old vols.new (count_of journals.old) }
    ensures faults { CountsFault (IsErrOf result OpenFault.Volume) (V.disk.faults vols.old) (V.disk.faults vols.new) (count_of journals.old) }
{
    match journals.open(vols) {
        Ok(log) => Ok(log),
        Err(fault) => Err(OpenFault::from(fault)),
    }
}

/// One system more is up, with this log and these tables.
pub(crate) fn add<R: Rules, A: Application>(
    both: &mut WorldTables<R, A>,
    log: Items<Record>,
    tables: SystemTables<A>,
) -> Result<(), OutOfMemory>
    ensures world { OnOk result (both.new.world ≡ with_log both.old.world log) }
    ensures tables { OnOk result (both.new.tables ≡ both.old.tables ++ tables ∷ []) }
{
    both.world.systems.push(SystemState {
        log,
        up: true,
        rest: None,
    })?;
    both.tables.push(tables)
}

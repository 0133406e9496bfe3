//! A record joins the log of a system and is written on its volume, or the system is as it was or falls.

ghost use Rattle.std.specs.Prelude.{◌≡◌, ◌-◌, ◌≤◌, true, Some, List, length, OnOk, OnErr, IfErr, IsErrOf};
ghost use Rattle.unit_core.specs.declared.ale_unit.AleUnit.{AleUnit};
ghost use Rattle.unit_core.specs.declared.records.Record.{Record};
ghost use Rattle.ale_volumes.specs.Clock.{LeavesOnly, KeepsOthers};
ghost use Rattle.ale_volumes.specs.Faults.{CountsFault};
ghost use Rattle.unit_codec.specs.Condition.{IsWritable};
ghost use Rattle.unit_codec.specs.Entries.{entry_with};
ghost use Rattle.unit_journal.specs.Settled.{IsBeforeOrAfter};
ghost use Rattle.trfc_protocol.specs.Worlds.{is_up, last_of, log_of, with_fall};
ghost use Rattle.unit_landscape.specs.declared.world_tables.WorldTables.{WorldTables};
ghost use Rattle.unit_landscape.specs.Entered.{IsEntered, HasCount};
ghost use Rattle.unit_landscape.specs.InStep.{AreInStepWith};
ghost use Rattle.unit_journal.specs.OnDisk.{next_moment, entries_at, IsOnDisk};
ghost use Rattle.unit_landscape.specs.KeptWorlds.{IsStored, kept_of};
ghost use Rattle.unit_landscape.specs.AppendEnds.{EndedAs, FullAs, JournalsAs, UnchangedAs, IsToWrite, IsWritten};
ghost use Rattle.unit_landscape.specs.steps.Writing.{CanConclude, ConcludedAs, IsWriteOf, ended_by};

use crate::{AppendEnd, WorldTables};
use ale_base::SystemNo;
use ale_volumes::Volumes;
use byte_journal::AppendFault;
use std::alloc::Global;
use system_tables::Application;
use trfc_protocol::Rules;
use unit_core::{AleUnit, Record};
use unit_journal::SystemJournals;

/// A record joins the log of a system and its units its table of units, and it is written on the system's volume. No other table is
/// told of it. After an `Err` all is in step and on the volumes: nothing has changed, or the system is down.
pub(crate) fn write<R: Rules, A: Application, V: Volumes>(
    alloc: Global,
    both: &mut WorldTables<R, A>,
    journals: &mut SystemJournals,
    vols: &mut V,
    system: SystemNo,
    next: Record,
    more: &[AleUnit],
) -> Result<(), AppendEnd>
    requires stored { IsStored R.meaning A.stands V.disk (kept_of both.old journals.old vols.old) }
    requires can { IsToWrite both.old.world system next }
    ensures written { OnOk result (IsWritten V.disk (kept_of both.old journals.old vols.old) (kept_of both.new journals.new vols.new) system next more.now) }
    ensures ended { IfErr result (EndedAs both.old.world both.new.world system next) }
    ensures stored { OnErr result (IsStored R.meaning A.stands V.disk (kept_of both.new journals.new vols.new)) }
    ensures journals { JournalsAs (system - 1) journals.old journals.new result }
    ensures unchanged { UnchangedAs (kept_of both.old journals.old vols.old) (kept_of both.new journals.new vols.new) result }
    ensures full { FullAs (system - 1) journals.old (log_of both.old.world system) next result }
    ensures any_moment { V.disk.told → LeavesOnly V.disk vols.old vols.new (system - 1)
        (IsBeforeOrAfter (entries_at journals.old (system - 1) (log_of both.old.world system)) (entry_with (next_moment journals.old (system - 1)) next)) }
    ensures others { V.disk.told → KeepsOthers V.disk vols.old vols.new (system - 1) }
    ensures faults { CountsFault (IsErrOf result AppendEnd.Volume) (V.disk.faults vols.old) (V.disk.faults vols.new) (system - 1) }
{
    let count = both.count(system);
    match both.enter(alloc, system, next, more) {
        Ok(()) => {
            let written = write_last(both, journals, vols, system);
            conclude(alloc, both, system, count, written)
        }
        Err(_) => Err(AppendEnd::Before),
    }
}

/// The last record of a system's log is written on the system's volume.
fn write_last<R: Rules, A: Application, V: Volumes>(
    both: &WorldTables<R, A>,
    journals: &mut SystemJournals,
    vols: &mut V,
    system: SystemNo,
) -> Result<(), AppendFault>
    requires last { (next : Record) × (last_of (log_of both.now.world system) ≡ Some next) × IsWritable next }
    requires on_disk { (log : List Record) × IsOnDisk V.disk vols.old (system - 1) journals.old log }
    ensures wrote { (next : Record) (log : List Record) → last_of (log_of both.now.world system) ≡ Some next
        → IsOnDisk V.disk vols.old (system - 1) journals.old log
        → IsWriteOf V.disk vols.old vols.new (system - 1) journals.old journals.new log next result }
    ensures any_moment { V.disk.told → (next : Record) (log : List Record) → last_of (log_of both.now.world system) ≡ Some next
        → IsOnDisk V.disk vols.old (system - 1) journals.old log
        → LeavesOnly V.disk vols.old vols.new (system - 1)
        (IsBeforeOrAfter (entries_at journals.old (system - 1) log) (entry_with (next_moment journals.old (system - 1)) next)) }
    ensures others { V.disk.told → KeepsOthers V.disk vols.old vols.new (system - 1) }
    ensures faults { CountsFault (IsErrOf result AppendFault.Volume) (V.disk.faults vols.old) (V.disk.faults vols.new) (system - 1) }
{
    let Some(next) = both.last(system) else {
        // The record was entered before it is written.
        unreachable!()
    };
    journals.write(vols, system, next)
}

/// What was entered stays where it was written. Else it is taken back, and where the volume failed its system falls with it.
fn conclude<R: Rules, A: Application>(
    alloc: Global,
    both: &mut WorldTables<R, A>,
    system: SystemNo,
    count: usize,
    written: Result<(), AppendFault>,
) -> Result<(), AppendEnd>
    requires { CanConclude R.meaning A.stands both.old system count }
    ensures result { result ≡ ended_by written }
    ensures concluded { (before : WorldTables R A A.Extra) (next : Record) (more : List AleUnit) → IsEntered before both.old system next more
        → HasCount before.tables (system - 1) count → is_up before.world system ≡ true → ConcludedAs before both.old both.new system next result }
    ensures in_step { OnErr result (AreInStepWith A.stands R.meaning both.new.world both.new.tables) }
{
    match written {
        Ok(()) => Ok(()),
        Err(AppendFault::OutOfMemory) => {
            undo(alloc, both, system, count);
            Err(AppendEnd::Before)
        }
        Err(AppendFault::Volume) => {
            fall_with(alloc, both, system, count);
            Err(AppendEnd::Volume)
        }
        Err(AppendFault::Full(place)) => {
            undo(alloc, both, system, count);
            Err(AppendEnd::Full(place))
        }
    }
}

/// A system falls with what was entered.
fn fall_with<R: Rules, A: Application>(
    alloc: Global,
    both: &mut WorldTables<R, A>,
    system: SystemNo,
    count: usize,
)
    requires { CanConclude R.meaning A.stands both.old system count }
    ensures world { (before : WorldTables R A A.Extra) (next : Record) (more : List AleUnit) → IsEntered before both.old system next more
        → HasCount before.tables (system - 1) count → is_up before.world system ≡ true → both.new.world ≡ with_fall before.world system (Some next) }
    ensures in_step { AreInStepWith A.stands R.meaning both.new.world both.new.tables }
{
    let rest = both.leave(alloc, system, count);
    both.fall(alloc, system, rest);
}

/// What was entered is taken back.
fn undo<R: Rules, A: Application>(
    alloc: Global,
    both: &mut WorldTables<R, A>,
    system: SystemNo,
    count: usize,
)
    requires { system ≤ length both.old.tables }
    ensures { (before : WorldTables R A A.Extra) (next : Record) (more : List AleUnit) → IsEntered before both.old system next more → HasCount before.tables (system - 1) count
        → both.new ≡ before }
{
    let _ = both.leave(alloc, system, count);
}

//! A record that may follow a log is noted in the tables of the log.

ghost use Rattle.std.specs.Prelude.{◌≡◌, ◌++◌, ◌∷◌, [], true, OnOk};
ghost use Rattle.std.specs.Option.{option_copied};
ghost use Rattle.ale_base.specs.declared.way.Way.TheVariants.{Outgoing, Incoming};
ghost use Rattle.trfc_protocol.specs.Legal.{may_follow};
ghost use Rattle.log_tables.specs.Places.{ArePlaces, place_of};
ghost use Rattle.log_tables.specs.OfLog.{IsRead};
ghost use Rattle.log_tables.specs.Read.{CommitFew, IsProper, executed_unit};
ghost use Rattle.log_tables.specs.Held.{IsFreeFor, held};

use crate::ids::{note_done, note_forgotten};
use crate::places::{Places, note_place, unit_received};
use crate::{Brought, LogRules, LogTables};
use ale_base::{OutOfMemory, SystemNo, Way};
use std::alloc::Global;
use system_tables::{Application, SystemTables};
use unit_core::{AleUnit, Record};

/// Notes a record that may follow the log of these tables.
pub(crate) fn note<R: LogRules>(
    alloc: Global,
    rules: &R,
    known: &mut R::Known,
    system: SystemNo,
    its: &mut LogTables<R::Tables>,
    log: &[Record],
    next: &Record,
) -> Result<(), OutOfMemory>
    requires few { CommitFew (R.meaning rules.now) }
    requires proper { IsProper next.now }
    requires read { IsRead (R.meaning rules.now) R.Tables.stands system log.now its.old }
    requires may { may_follow (R.meaning rules.now) system log.now next.now ≡ true }
    ensures { OnOk result (IsRead (R.meaning rules.now) R.Tables.stands system (log.now ++ next.now ∷ []) its.new) }
{
    let executed = executed_unit(&its.places, log, next);
    let Brought { units, extra } = rules.brings(
        alloc,
        known,
        system,
        its.tables.application(),
        log,
        next,
        executed,
    )?;
    hold(&mut its.tables, next);
    its.tables
        .note(alloc, next, units.as_slice(), Some(0), extra)?;
    its.tables.take_over(units)?;
    note_place(&mut its.places, log.len(), next)?;
    note_done(&mut its.done, next)?;
    note_forgotten(&mut its.forgotten, next)?;
    Ok(())
}

/// The unit that a record executes, which was received before.
fn executed_unit<'a>(places: &Places, log: &'a [Record], next: &Record) -> Option<&'a AleUnit>
    requires { ArePlaces log.now (place_of places.now) }
    ensures { option_copied result ≡ executed_unit log.now next.now }
{
    match next {
        Record::Execute { tid } => unit_received(places, log, *tid),
        _ => None,
    }
}

/// Claims the unit whose claim a record ends.
fn hold<A: Application>(tables: &mut SystemTables<A>, next: &Record)
    requires outgoing { IsFreeFor Outgoing next.now tables.old.outgoing }
    requires incoming { IsFreeFor Incoming next.now tables.old.incoming }
    ensures { tables.new ≡ held next.now tables.old }
{
    match next {
        Record::Done { tid } | Record::Mark { tid, .. } => tables.hold(Way::Outgoing, *tid, 0),
        Record::Execute { tid } | Record::Fail { tid } => tables.hold(Way::Incoming, *tid, 0),
        _ => {}
    }
}

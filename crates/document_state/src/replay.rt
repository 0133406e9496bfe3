//! A log replayed from its first record.

ghost use Rattle.std.specs.Prelude.{◌≡◌, ◌++◌, ◌∷◌, [], IfOk, OnOk, map};
ghost use Rattle.std.specs.Option.{option_copied};
ghost use Rattle.unit_core.specs.Filters.{received};
ghost use Rattle.unit_core.specs.Queues.{unit_named};
ghost use Rattle.unit_core.specs.declared.records.Record.TheVariants.{Execute};
ghost use Rattle.document_state.specs.Made.{GoesWith};
ghost use Rattle.document_state.specs.Tables.{AreTablesOf};
ghost use Rattle.document_state.specs.steps.Replaying.{IsNext, IsReplayOf, units_made};

use crate::{DocumentTables, Made, ModelRules};
use ale_base::{Items, OutOfMemory, SystemNo, Tid};
use outbound_build::{AddFault, OutUnit};
use said_models::Readings;
use std::alloc::Global;
use std::sync::Arc;
use system_tables::Application;
use unit_core::{AleUnit, Record, taken_by};

/// What came of a log: its tables, and the units that it commits.
#[derive(Drop)]
pub(crate) struct Replay {
    pub(crate) tables: DocumentTables,
    pub(crate) units: Items<AleUnit>,
}

impl ModelRules {
    ghost use Rattle.std.specs.Prelude.{IfOk};
    ghost use Rattle.trfc_protocol.specs.Legal.{IsLegal};
    ghost use Rattle.document_state.specs.Meaning.{model_meaning};
    ghost use Rattle.document_state.specs.steps.Replaying.{IsReplayOf};

    /// Replays a legal log of a system.
    pub(crate) fn replayed(
        &self,
        alloc: Global,
        system: SystemNo,
        log: &[Record],
    ) -> Result<Replay, OutOfMemory>
        requires { IsLegal (model_meaning (self.now).systems) system log.now }
        ensures { IfOk result (IsReplayOf log.now) }
    {
        let mut readings = Readings::new(alloc);
        let mut replay = Replay {
            tables: DocumentTables::new(alloc),
            units: Items::new(alloc),
        };
        for (place, next) in log.iter().enumerate() {
            take_up(
                alloc,
                &mut readings,
                &mut replay,
                system,
                &log[..place],
                next,
            )?;
        }
        Ok(replay)
    }
}

/// Takes up a record that may follow a legal log.
fn take_up(
    alloc: Global,
    readings: &mut Readings,
    replay: &mut Replay,
    system: SystemNo,
    log: &[Record],
    next: &Record,
) -> Result<(), OutOfMemory>
    requires follows { IsNext system log.now next.now }
    requires replayed { IsReplayOf log.now replay.old }
    ensures { OnOk result (IsReplayOf (log.now ++ next.now ∷ []) replay.new) }
{
    let made = made_for(alloc, readings, &replay.tables, system, log, next)?;
    push_made(&mut replay.units, &made)?;
    replay.tables.note(alloc, next, made)
}

/// What goes with a record that may follow a legal log.
pub(crate) fn made_for(
    alloc: Global,
    readings: &mut Readings,
    tables: &DocumentTables,
    system: SystemNo,
    log: &[Record],
    next: &Record,
) -> Result<Made, OutOfMemory>
    requires follows { IsNext system log.now next.now }
    requires tables { AreTablesOf log.now tables.now }
    ensures { IfOk result (GoesWith log.now next.now) }
{
    match next {
        Record::Commit { .. } | Record::Dispatch => match tables.added(alloc, system, next) {
            Ok(added) => Ok(Made::Sent(added)),
            Err(AddFault::OutOfMemory) => Err(OutOfMemory),
            // A legal log has no more units than there may be.
            Err(AddFault::TooMany(_)) => unreachable!(),
        },
        Record::Genesis { text, .. } | Record::Model { text } => {
            Ok(Made::Brought(readings.model(alloc, text.as_slice())?))
        }
        Record::Direct { unit } => Ok(Made::Postings(tables.postings(alloc, system, unit)?)),
        Record::Execute { tid } => executed(alloc, tables, system, log, *tid),
        _ => Ok(Made::Nothing),
    }
}

/// What goes with an Execute that may follow a legal log: the unit, and what becomes of its documents.
fn executed(
    alloc: Global,
    tables: &DocumentTables,
    system: SystemNo,
    log: &[Record],
    tid: Tid,
) -> Result<Made, OutOfMemory>
    requires follows { IsNext system log.now (Execute tid) }
    requires tables { AreTablesOf log.now tables.now }
    ensures { IfOk result (GoesWith log.now (Execute tid)) }
{
    match received_unit(log, tid) {
        // A unit is executed only where it was received.
        None => unreachable!(),
        Some(unit) => {
            let postings = tables.postings(alloc, system, unit)?;
            let unit = Arc::new(alloc, unit.clone()?)?;
            Ok(Made::Executed { unit, postings })
        }
    }
}

/// The unit of an id that a log received.
fn received_unit(log: &[Record], tid: Tid) -> Option<&AleUnit>
    ensures { option_copied result ≡ unit_named tid (received log.now) }
{
    for record in log {
        if let Some(unit) = taken_by(record) {
            if unit.tid == tid {
                return Some(unit);
            }
        }
    }
    None
}

/// Adds the units that were made for a record to those before.
pub(crate) fn push_made(units: &mut Items<AleUnit>, made: &Made) -> Result<(), OutOfMemory>
    ensures { OnOk result (units.new ≡ units.old ++ units_made made.now) }
{
    match made {
        Made::Sent(added) => push_units(units, added.units.as_slice()),
        _ => Ok(()),
    }
}

fn push_units(units: &mut Items<AleUnit>, more: &[OutUnit]) -> Result<(), OutOfMemory>
    ensures { OnOk result (units.new ≡ units.old ++ map (λ one. one.unit) more.now) }
{
    for one in more {
        units.push(one.unit.clone()?)?;
    }
    Ok(())
}

//! The rules at the tables of a log, which they decide by.

ghost use Rattle.std.specs.Prelude.{◌≡◌, Some, All, IfOk};
ghost use Rattle.std.specs.Option.{option_copied};
ghost use Rattle.document_state.specs.Made.{GoesWith};
ghost use Rattle.document_state.specs.Tables.{AreTablesOf};
ghost use Rattle.log_tables.specs.OfLog.{IsReadTo};
ghost use Rattle.log_tables.specs.Read.{IsProper, executed_unit};
ghost use Rattle.document_state.specs.Meaning.{model_meaning};
ghost use Rattle.document_state.specs.steps.Replaying.{IsNext, units_made};

use crate::allowing::is_allowed;
use crate::replay::{made_for, push_made};
use crate::{DocumentTables, Made, ModelRules};
use ale_base::{Fixed, Items, OutOfMemory, SystemNo};
use log_tables::{Brought, LogRules, LogTables, read};
use said_models::Readings;
use std::alloc::Global;
use std::sync::Arc;
use unit_core::{AleUnit, Record};

impl LogRules for ModelRules {
    type Tables = DocumentTables;

    type Known = Readings;

    fn allows_at(
        &self,
        alloc: Global,
        known: &mut Readings,
        system: SystemNo,
        tables: &DocumentTables,
        _log: &[Record],
        next: &Record,
    ) -> Result<bool, OutOfMemory> {
        is_allowed(alloc, tables, known, self.systems, system, next)
    }

    fn offers_at(
        &self,
        system: SystemNo,
        tables: &DocumentTables,
        _log: &[Record],
        function: &Fixed<30>,
    ) -> bool {
        tables.offers(system, function)
    }

    fn brings(
        &self,
        alloc: Global,
        known: &mut Readings,
        system: SystemNo,
        tables: &DocumentTables,
        log: &[Record],
        next: &Record,
        executed: Option<&AleUnit>,
    ) -> Result<Brought<DocumentTables>, OutOfMemory> {
        let made = made_at(alloc, known, tables, system, log, next, executed)?;
        let units = units_of(alloc, &made)?;
        Ok(Brought { units, extra: made })
    }
}

/// What goes with a record that may follow a legal log. An Execute comes with its unit, so that the log is not walked.
fn made_at(
    alloc: Global,
    known: &mut Readings,
    tables: &DocumentTables,
    system: SystemNo,
    log: &[Record],
    next: &Record,
    executed: Option<&AleUnit>,
) -> Result<Made, OutOfMemory>
    requires follows { IsNext system log.now next.now }
    requires tables { AreTablesOf log.now tables.now }
    requires unit { option_copied executed ≡ executed_unit log.now next.now }
    ensures { IfOk result (GoesWith log.now next.now) }
{
    match executed {
        Some(unit) => made_of(alloc, tables, system, log, next, unit),
        None => made_for(alloc, known, tables, system, log, next),
    }
}

/// What goes with an Execute of this unit that may follow a legal log.
fn made_of(
    alloc: Global,
    tables: &DocumentTables,
    system: SystemNo,
    log: &[Record],
    next: &Record,
    unit: &AleUnit,
) -> Result<Made, OutOfMemory>
    requires follows { IsNext system log.now next.now }
    requires tables { AreTablesOf log.now tables.now }
    requires unit { executed_unit log.now next.now ≡ Some unit.now }
    ensures { IfOk result (GoesWith log.now next.now) }
{
    let _log = log;
    let _next = next;
    let postings = tables.postings(alloc, system, unit)?;
    let unit = Arc::new(alloc, unit.clone()?)?;
    Ok(Made::Executed { unit, postings })
}

/// The units that were made for a record.
fn units_of(alloc: Global, made: &Made) -> Result<Items<AleUnit>, OutOfMemory>
    ensures { IfOk result (λ units. units ≡ units_made made.now) }
{
    let mut units = Items::new(alloc);
    push_made(&mut units, made)?;
    Ok(units)
}

/// Reads the log of a system, as far as it is legal by these rules: the tables are those of its first records, as many as this, and the
/// next one, where there is one, may not follow them.
pub fn read_log(
    alloc: Global,
    rules: &ModelRules,
    readings: &mut Readings,
    system: SystemNo,
    log: &[Record],
) -> Result<(LogTables<DocumentTables>, usize), OutOfMemory>
    requires proper { All IsProper log.now }
    ensures { IfOk result (λ read. IsReadTo (model_meaning rules.now.systems) (λ tables records. AreTablesOf records tables) system log.now read.1 read.0) }
{
    let application = DocumentTables::new(alloc);
    read(alloc, rules, readings, system, application, log)
}

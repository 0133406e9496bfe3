//! Rules that list units, at the tables of a log.

ghost use Rattle.std.specs.Prelude.{◌≡◌, ⊤, IfOk};
ghost use Rattle.protocol_scenes.specs.ListedRules.{list_of, units_by};

use crate::listed_rules::{ListedRules, commits_of, is_commit_record, is_model};
use ale_base::{Fixed, Items, OutOfMemory, SystemNo};
use log_tables::{Brought, LogRules};
use std::alloc::Global;
use system_tables::Application;
use unit_core::{AleUnit, Record};

/// The tables of no application.
#[derive(Clone, Copy)]
pub struct NoTables;

impl Application for NoTables {
    type Extra = ();

    ghost stands = { λ tables log. ⊤ };

    ghost goes_with = { λ tables log next extra. ⊤ };

    fn nothing() {}

    fn note(&mut self, alloc: Global, next: &Record, extra: ()) -> Result<(), OutOfMemory> {
        let _next = next;
        let _ = (alloc, extra);
        Ok(())
    }
}

impl LogRules for ListedRules {
    type Tables = NoTables;

    type Known = ();

    fn allows_at(
        &self,
        alloc: Global,
        known: &mut (),
        system: SystemNo,
        tables: &NoTables,
        log: &[Record],
        next: &Record,
    ) -> Result<bool, OutOfMemory> {
        let _tables = tables;
        let _ = alloc;
        let _ = known;
        Ok(is_model(next) || (is_commit_record(next) && commits_of(log) < self.list(system).len()))
    }

    fn offers_at(
        &self,
        system: SystemNo,
        tables: &NoTables,
        log: &[Record],
        function: &Fixed<30>,
    ) -> bool {
        let _tables = tables;
        let _log = log;
        let _ = system;
        function.trimmed() == ListedRules::FUNCTION
    }

    fn brings(
        &self,
        alloc: Global,
        known: &mut (),
        system: SystemNo,
        tables: &NoTables,
        log: &[Record],
        next: &Record,
        executed: Option<&AleUnit>,
    ) -> Result<Brought<NoTables>, OutOfMemory> {
        let _tables = tables;
        let _executed = executed;
        let _ = known;
        let units = units_by(alloc, self.list(system), log, next)?;
        Ok(Brought { units, extra: () })
    }
}

/// The unit of a list that a record commits behind a log, and none where it is no Commit.
fn units_by(
    alloc: Global,
    list: &[AleUnit],
    log: &[Record],
    next: &Record,
) -> Result<Items<AleUnit>, OutOfMemory>
    ensures { IfOk result (λ units. units ≡ units_by list.now log.now next.now) }
{
    let mut units = Items::new(alloc);
    if is_commit_record(next) {
        if let Some(unit) = list.get(commits_of(log)) {
            units.push(unit.clone()?)?;
        }
    }
    Ok(units)
}

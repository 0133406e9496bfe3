//! Whether the logs of the systems that are opened keep the exactly-once law.

ghost use Rattle.std.specs.Prelude.{◌≡◌, ◌↔◌, ◌≤◌, None, length, map, IfOk};
ghost use Rattle.unit_core.specs.Systems.{lent};
ghost use Rattle.trfc_protocol.specs.declared.world.SystemState.{SystemState};
ghost use Rattle.system_tables.specs.Tables.{TablesOf};
ghost use Rattle.unit_landscape.specs.InStep.{AreInStepWith};
ghost use Rattle.unit_landscape.specs.Opening.{BeginsLegal};
ghost use Rattle.unit_landscape.specs.Breaches.{BreaksAs, KeepsOnce};

use super::Opening;
use crate::WorldTables;
use ale_base::OutOfMemory;
use ale_volumes::Volumes;
use once_check::{Breach, first_breach};
use std::alloc::Global;
use system_tables::{Application, SystemTables};
use trfc_protocol::{Rules, SystemState};
use unit_core::{AleUnit, Record};

impl<R: Rules, A: Application, V: Volumes> Opening<R, A, V> {
    ghost use Rattle.std.specs.Prelude.{◌≡◌, ◌↔◌, None, IfOk};
    ghost use Rattle.unit_landscape.specs.Breaches.{BreaksAs, KeepsOnce};

    /// The first record that breaks a clause of the exactly-once law, in the logs of the systems that are opened: by systems, then by
    /// records, then by clauses. None exactly where these logs keep the law.
    pub fn breach(&self) -> Result<Option<Breach>, OutOfMemory>
        ensures first { IfOk result (BreaksAs (R.meaning (self.now).world.rules) (self.now).world) }
        ensures once { IfOk result (λ found. (found ≡ None) ↔ KeepsOnce (R.meaning (self.now).world.rules) (self.now).world) }
    {
        let _vols = &self.vols;
        breach_in(self.alloc, &self.both)
    }
}

/// The first breach in the logs of a world, whose tables are in step with it.
fn breach_in<R: Rules, A: Application>(
    alloc: Global,
    both: &WorldTables<R, A>,
) -> Result<Option<Breach>, OutOfMemory>
    requires begins { BeginsLegal R.meaning (both.now).world }
    requires in_step { AreInStepWith A.stands R.meaning (both.now).world (both.now).tables }
    requires few { length (both.now).world.systems ≤ 16 }
    ensures first { IfOk result (BreaksAs (R.meaning (both.now).world.rules) (both.now).world) }
    ensures once { IfOk result (λ found. (found ≡ None) ↔ KeepsOnce (R.meaning (both.now).world.rules) (both.now).world) }
{
    let logs = lent_logs(alloc, both.world.systems.as_slice())?;
    let units = lent_units(alloc, both.tables.as_slice())?;
    first_breach(alloc, logs.as_slice(), units.as_slice())
}

/// The logs of systems.
fn lent_logs<'a>(
    alloc: Global,
    systems: &'a [SystemState],
) -> Result<Vec<&'a [Record]>, OutOfMemory>
    ensures { IfOk result (λ logs. lent logs.items ≡ map (λ (state : SystemState). state.log) systems.now) }
{
    let mut logs = Vec::new(alloc);
    for state in systems {
        logs.push(state.log.as_slice())?;
    }
    Ok(logs)
}

/// The units that systems committed, by their tables.
fn lent_units<'a, A: Application>(
    alloc: Global,
    tables: &'a [SystemTables<A>],
) -> Result<Vec<&'a [AleUnit]>, OutOfMemory>
    ensures { IfOk result (λ units. lent units.items ≡ map (λ (its : TablesOf A). its.units) tables.now) }
{
    let mut units = Vec::new(alloc);
    for its in tables {
        units.push(its.units())?;
    }
    Ok(units)
}

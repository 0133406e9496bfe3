//! The units that a whole log commits, record by record.

ghost use Rattle.std.specs.Prelude.{◌≡◌, ◌≤◌, ◌<◌, ◌+◌, ◌++◌, ◌∷◌, ◌^◌, ℕ, [], Err, IfOk, OnOk, length, map};
ghost use Rattle.log_models.specs.InForce.{models_after, system_after};
ghost use Rattle.unit_core.specs.declared.records.Record.{Record};
ghost use Rattle.outbound_build.specs.Added.{added_by};
ghost use Rattle.outbound_build.specs.Committed.{IsFirstAbove, adds, committed_of, documents_of, no_more, past_of, units_behind, units_of};
ghost use Rattle.outbound_build.specs.steps.Behind.{begun, more_of, with_more};
ghost use Rattle.outbound_build.specs.declared.fault.AddFault.{AddFault};

use crate::{AddFault, Added, OutUnit, Outbox};
use ale_base::{Items, OutOfMemory, SystemNo};
use dist_model::Model;
use log_models::in_force;
use std::alloc::Global;
use unit_core::{AleUnit, Record};

/// What is kept behind some records of a log.
#[derive(Drop)]
pub(crate) struct Behind {
    /// How many models there were.
    pub(crate) models: usize,
    /// The system that the Genesis of the first of them names. 0 where there is none.
    pub(crate) system: u8,
    /// The documents that wait, and the counts.
    pub(crate) outbox: Outbox,
    /// The units.
    pub(crate) units: Items<AleUnit>,
}

/// The units of a whole log whose models these are, in order. It goes through the log once: each record takes what `Outbox`
/// takes for it, and no record is looked at again.
///
/// `TooMany` comes exactly where the log has more than 65,536 units, with their number behind the first record at which
/// there are so many.
pub fn committed(alloc: Global, models: &[Model], log: &[Record]) -> Result<Vec<AleUnit>, AddFault>
    ensures units { IfOk result (λ units. units.items ≡ committed_of models.now log.now) }
    ensures few { OnOk result (length (committed_of models.now log.now) ≤ 65536) }
    ensures too_many { (count : ℕ) → result ≡ Err (AddFault.TooMany count) → IsFirstAbove models.now log.now count }
    // One more record adds to both lists, and changes nothing in them.
    ensures grows { (next : Record)
        → (documents_of models.now (log.now ++ next ∷ [])
        ≡ documents_of models.now log.now ++ (adds models.now (past_of models.now log.now) next).documents)
        × (units_of models.now (log.now ++ next ∷ [])
        ≡ units_of models.now log.now ++ (adds models.now (past_of models.now log.now) next).units) }
{
    let mut behind = begun(alloc);
    for next in log {
        let more = more_of(alloc, models, &behind, next)?;
        take_in(alloc, next, more, &mut behind)?;
    }
    Ok(behind.units.into_vec())
}

/// Nothing is behind.
fn begun(alloc: Global) -> Behind
    ensures { result ≡ begun }
{
    Behind {
        models: 0,
        system: 0,
        outbox: Outbox::new(alloc),
        units: Items::new(alloc),
    }
}

/// What one more record adds: nothing where no model is in force.
fn more_of(
    alloc: Global,
    models: &[Model],
    behind: &Behind,
    next: &Record,
) -> Result<Added, AddFault>
    requires few { behind.now.outbox.units ≤ 65536 }
    ensures more { IfOk result (λ more. more ≡ more_of models.now behind.now next.now) }
    ensures few { OnOk result (units_behind behind.now.outbox (more_of models.now behind.now next.now) ≤ 65536) }
    ensures too_many { (count : ℕ) → result ≡ Err (AddFault.TooMany count)
        → (count ≡ units_behind behind.now.outbox (more_of models.now behind.now next.now)) × (65536 < count) }
{
    match in_force(models, behind.models) {
        None => Ok(nothing(alloc)),
        Some(model) => added_at(alloc, model, behind.system, &behind.outbox, next),
    }
}

/// What a record adds to the log of the system of this number: nothing where no system has it, since the rows of a model
/// are of its systems.
fn added_at(
    alloc: Global,
    model: &Model,
    number: u8,
    outbox: &Outbox,
    next: &Record,
) -> Result<Added, AddFault>
    requires few { outbox.now.units ≤ 65536 }
    ensures more { IfOk result (λ more. more ≡ added_by model.now number outbox.now next.now) }
    ensures few { OnOk result (units_behind outbox.now (added_by model.now number outbox.now next.now) ≤ 65536) }
    ensures too_many { (count : ℕ) → result ≡ Err (AddFault.TooMany count)
        → (count ≡ units_behind outbox.now (added_by model.now number outbox.now next.now)) × (65536 < count) }
{
    let _lists = model.as_lists();
    match SystemNo::of(number) {
        None => Ok(nothing(alloc)),
        Some(system) => outbox.added(alloc, model, system, next),
    }
}

/// Nothing is added.
fn nothing(alloc: Global) -> Added
    ensures { result ≡ no_more }
{
    Added {
        documents: Items::new(alloc),
        units: Items::new(alloc),
    }
}

/// Takes in a record and what it adds.
fn take_in(
    alloc: Global,
    next: &Record,
    more: Added,
    behind: &mut Behind,
) -> Result<(), OutOfMemory>
    requires { behind.old.models + 1 < 2 ^ 64 }
    ensures { OnOk result (behind.new ≡ with_more behind.old next.now more) }
{
    behind.outbox.take(alloc, next, &more)?;
    add_units(more, &mut behind.units)?;
    behind.system = system_after(behind.models, behind.system, next);
    behind.models = models_after(behind.models, next);
    Ok(())
}

/// Adds the units of what is added.
fn add_units(more: Added, units: &mut Items<AleUnit>) -> Result<(), OutOfMemory>
    ensures { OnOk result (units.new ≡ units.old ++ map (λ one. one.unit) more.units) }
{
    let Added { units: added, .. } = more;
    for one in added.into_vec() {
        units.push(unit_in(one))?;
    }
    Ok(())
}

/// The unit alone.
fn unit_in(one: OutUnit) -> AleUnit
    ensures { result ≡ one.unit }
{
    let OutUnit { unit, .. } = one;
    unit
}

/// How many models there are behind one more record.
fn models_after(models: usize, next: &Record) -> usize
    requires { models + 1 < 2 ^ 64 }
    ensures { result ≡ models_after models next.now }
{
    match next {
        Record::Genesis { .. } | Record::Model { .. } => models + 1,
        _ => models,
    }
}

/// The system of a log behind one more record.
fn system_after(models: usize, before: u8, next: &Record) -> u8
    ensures { result ≡ system_after models before next.now }
{
    match next {
        Record::Genesis { system, .. } if models == 0 => *system,
        _ => before,
    }
}

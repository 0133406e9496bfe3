//! The units and ids that a log tells of.

ghost use Rattle.std.specs.Prelude.{◌≡◌, IfOk};
ghost use Rattle.std.specs.Option.{option_copied};
ghost use Rattle.std.specs.List.{filter_map};
ghost use Rattle.unit_core.specs.Filters.{received, taken_by, executed, done_in, ended_in, forgotten_in};
ghost use Rattle.unit_core.specs.steps.Facts.{told_by};

use crate::{AleUnit, Record};
use ale_base::{OutOfMemory, Tid};
use std::alloc::Global;

/// The units that a log received, in order: those of its Accept and Direct records.
pub fn received(alloc: Global, log: &[Record]) -> Result<Vec<AleUnit>, OutOfMemory>
    ensures { IfOk result (λ units. units.items ≡ received log.now) }
{
    let mut units = Vec::new(alloc);
    for record in log {
        if let Some(unit) = taken_by(record) {
            units.push(unit.clone()?)?;
        }
    }
    Ok(units)
}

/// The ids of the units that a log executed, in order: those of its Execute and Direct records.
pub fn executed(alloc: Global, log: &[Record]) -> Result<Vec<Tid>, OutOfMemory>
    ensures { IfOk result (λ tids. tids.items ≡ executed log.now) }
{
    tids_told(alloc, log, Fact::Executed)
}

/// The ids of the units that are done at this sender, in order: those of its Done records.
pub fn done_in(alloc: Global, log: &[Record]) -> Result<Vec<Tid>, OutOfMemory>
    ensures { IfOk result (λ tids. tids.items ≡ done_in log.now) }
{
    tids_told(alloc, log, Fact::Done)
}

/// The ids of the units that are ended at this sender, in order: those of its Ended records.
pub fn ended_in(alloc: Global, log: &[Record]) -> Result<Vec<Tid>, OutOfMemory>
    ensures { IfOk result (λ tids. tids.items ≡ ended_in log.now) }
{
    tids_told(alloc, log, Fact::Ended)
}

/// The ids that this receiver forgot, in order: those of its Forget records.
pub fn forgotten_in(alloc: Global, log: &[Record]) -> Result<Vec<Tid>, OutOfMemory>
    ensures { IfOk result (λ tids. tids.items ≡ forgotten_in log.now) }
{
    tids_told(alloc, log, Fact::Forgotten)
}

/// What a record may tell of the unit of an id.
#[derive(Clone, Copy)]
pub(crate) enum Fact {
    Executed,
    Done,
    Ended,
    Forgotten,
}

/// The ids of which a log tells this.
fn tids_told(alloc: Global, log: &[Record], fact: Fact) -> Result<Vec<Tid>, OutOfMemory>
    ensures { IfOk result (λ tids. tids.items ≡ filter_map (told_by fact) log.now) }
{
    let mut tids = Vec::new(alloc);
    for record in log {
        if let Some(tid) = told_by(record, fact) {
            tids.push(tid)?;
        }
    }
    Ok(tids)
}

/// The id of which a record tells this.
fn told_by(entry: &Record, fact: Fact) -> Option<Tid>
    ensures { result ≡ told_by fact entry.now }
{
    match (fact, entry) {
        (Fact::Executed, Record::Execute { tid }) => Some(*tid),
        (Fact::Executed, Record::Direct { unit }) => Some(unit.tid),
        (Fact::Done, Record::Done { tid }) => Some(*tid),
        (Fact::Ended, Record::Ended { tid }) => Some(*tid),
        (Fact::Forgotten, Record::Forget { tid }) => Some(*tid),
        _ => None,
    }
}

/// The unit that a record takes in.
pub fn taken_by(entry: &Record) -> Option<&AleUnit>
    ensures { option_copied result ≡ taken_by entry.now }
{
    match entry {
        Record::Accept { unit } | Record::Direct { unit } => Some(unit),
        _ => None,
    }
}

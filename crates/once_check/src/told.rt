//! The ids that logs tell of.

ghost use Rattle.std.specs.Prelude.{◌≡◌, IfOk};
ghost use Rattle.unit_core.specs.Queues.{is_listed};
ghost use Rattle.unit_core.specs.Systems.{lent, of_system};
ghost use Rattle.once_check.specs.steps.ToldIds.{IsToldBy, AreToldBy, told_at};

use ale_base::{Items, OutOfMemory, SystemNo, Tid};
use std::alloc::Global;
use tid_table::Tids;
use unit_core::Record;

/// The ids that a log tells of: those of the units that it received, those that are done, and those that it forgot.
#[derive(Drop)]
pub(crate) struct Told {
    pub(crate) received: Tids,
    pub(crate) done: Tids,
    pub(crate) forgotten: Tids,
}

impl Told {
    ghost use Rattle.std.specs.Prelude.{◌≡◌, OnOk};
    ghost use Rattle.once_check.specs.steps.ToldIds.{nothing_told, Notes};

    /// Nothing is told. It takes no memory.
    fn new(alloc: Global) -> Told
        ensures { result ≡ nothing_told }
    {
        Told {
            received: Tids::new(alloc),
            done: Tids::new(alloc),
            forgotten: Tids::new(alloc),
        }
    }

    /// Notes what one record more tells.
    fn note(&mut self, next: &Record) -> Result<(), OutOfMemory>
        ensures { OnOk result (Notes next.now self.old self.new) }
    {
        match next {
            Record::Accept { unit } | Record::Direct { unit } => self.received.enter(unit.tid),
            Record::Done { tid } => self.done.enter(*tid),
            Record::Forget { tid } => self.forgotten.enter(*tid),
            _ => Ok(()),
        }
    }
}

/// What a log tells.
fn told_by(alloc: Global, log: &[Record]) -> Result<Told, OutOfMemory>
    ensures { IfOk result (IsToldBy log.now) }
{
    let mut told = Told::new(alloc);
    for next in log {
        told.note(next)?;
    }
    Ok(told)
}

/// What each log tells.
pub(crate) fn all_told(alloc: Global, logs: &[&[Record]]) -> Result<Items<Told>, OutOfMemory>
    ensures { IfOk result (AreToldBy (of_system (lent logs.now))) }
{
    let mut all = Items::new(alloc);
    for log in logs {
        all.push(told_by(alloc, *log)?)?;
    }
    Ok(all)
}

/// Whether a system received a unit of this id.
pub(crate) fn is_received(all: &[Told], system: SystemNo, tid: Tid) -> bool
    ensures { result ≡ is_listed tid (told_at all.now system).received }
{
    let number = system.get();
    match all.get(number as usize - 1) {
        Some(told) => told.received.seen(tid),
        None => false,
    }
}

/// Whether the unit of this id is done at a system.
pub(crate) fn is_done(all: &[Told], system: SystemNo, tid: Tid) -> bool
    ensures { result ≡ is_listed tid (told_at all.now system).done }
{
    let number = system.get();
    match all.get(number as usize - 1) {
        Some(told) => told.done.seen(tid),
        None => false,
    }
}

/// Whether a system forgot this id.
pub(crate) fn is_forgotten(all: &[Told], system: SystemNo, tid: Tid) -> bool
    ensures { result ≡ is_listed tid (told_at all.now system).forgotten }
{
    let number = system.get();
    match all.get(number as usize - 1) {
        Some(told) => told.forgotten.seen(tid),
        None => false,
    }
}

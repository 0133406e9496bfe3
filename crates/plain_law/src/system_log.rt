//! The log of one system, with the units that it committed, took in and executed.

use crate::queue::Queue;
use ale_base::{OutOfMemory, Tid};
use std::alloc::Global;
use unit_core::{AleUnit, Record};

/// The log of a system, read once.
#[derive(Drop)]
pub(crate) struct SystemLog<'a> {
    pub(crate) log: &'a [Record],
    /// The units that the system committed.
    pub(crate) committed: Vec<&'a AleUnit>,
    /// The units that it took in.
    pub(crate) taken: Vec<&'a AleUnit>,
    /// The units that it took in and executed, as it executed them.
    pub(crate) executed: Vec<&'a AleUnit>,
}

impl<'a> SystemLog<'a> {
    /// No log.
    pub(crate) fn none(alloc: Global) -> SystemLog<'a> {
        SystemLog {
            log: &[],
            committed: Vec::new(alloc),
            taken: Vec::new(alloc),
            executed: Vec::new(alloc),
        }
    }

    pub(crate) fn of(
        alloc: Global,
        log: &'a [Record],
        committed: &'a [AleUnit],
    ) -> Result<SystemLog<'a>, OutOfMemory> {
        let mut system = SystemLog::none(alloc);
        system.log = log;
        for unit in committed {
            system.committed.push(unit)?;
        }
        system.read()?;
        Ok(system)
    }

    /// Reads what was taken in and executed.
    fn read(&mut self) -> Result<(), OutOfMemory> {
        for record in self.log {
            if let Some(unit) = taken_by(record) {
                self.taken.push(unit)?;
            }
        }
        for record in self.log {
            self.read_executed(record)?;
        }
        Ok(())
    }

    /// Notes the unit that a record executes.
    fn read_executed(&mut self, record: &Record) -> Result<(), OutOfMemory> {
        if let Some(tid) = executed_by(record) {
            if let Some(unit) = self.taken.iter().find(|unit| unit.tid == tid) {
                self.executed.push(unit)?;
            }
        }
        Ok(())
    }

    /// The unit of an id, as the system committed it.
    pub(crate) fn unit(&self, tid: Tid) -> Option<&'a AleUnit> {
        let unit = self.committed.iter().find(|unit| unit.tid == tid)?;
        Some(*unit)
    }

    /// Whether no id was taken in twice.
    pub(crate) fn took_once(&self) -> bool {
        for (place, unit) in self.taken.iter().enumerate() {
            if self.taken[..place]
                .iter()
                .any(|other| other.tid == unit.tid)
            {
                return false;
            }
        }
        true
    }

    /// Whether each id that was executed had been taken in, and none was executed twice.
    pub(crate) fn executed_once(&self) -> bool {
        for (place, record) in self.log.iter().enumerate() {
            if let Some(tid) = executed_by(record) {
                let before = &self.log[..place];
                if has_executed(before, tid) || !(takes(record, tid) || has_taken(before, tid)) {
                    return false;
                }
            }
        }
        true
    }

    /// Whether of each inbound queue the units that were executed are the first of those taken in.
    pub(crate) fn executed_in_order(&self) -> bool {
        for unit in &self.taken {
            if !self.keeps_inbound(unit) {
                return false;
            }
        }
        true
    }

    /// Whether of each inbound queue of one unit the units that were executed are the first of those taken in.
    fn keeps_inbound(&self, unit: &AleUnit) -> bool {
        for name in &unit.inq {
            let queue = Queue::Inbound(*name);
            if !queue.is_kept(self.executed.as_slice(), self.taken.as_slice()) {
                return false;
            }
        }
        true
    }

    pub(crate) fn has_done(&self, tid: Tid) -> bool {
        self.log.iter().any(|record| matches!(record, Record::Done { tid: other } if *other == tid))
    }

    pub(crate) fn has_forgotten(&self, tid: Tid) -> bool {
        self.log.iter().any(
            |record| matches!(record, Record::Forget { tid: other } if *other == tid),
        )
    }
}

/// The unit that a record takes in.
fn taken_by(record: &Record) -> Option<&AleUnit> {
    match record {
        Record::Accept { unit } | Record::Direct { unit } => Some(unit),
        _ => None,
    }
}

/// The id that a record executes.
fn executed_by(record: &Record) -> Option<Tid> {
    match record {
        Record::Execute { tid } => Some(*tid),
        Record::Direct { unit } => Some(unit.tid),
        _ => None,
    }
}

/// Whether a record takes in the unit of an id.
fn takes(record: &Record, tid: Tid) -> bool {
    match taken_by(record) {
        Some(unit) => unit.tid == tid,
        None => false,
    }
}

fn has_taken(log: &[Record], tid: Tid) -> bool {
    log.iter().any(|record| takes(record, tid))
}

fn has_executed(log: &[Record], tid: Tid) -> bool {
    log.iter().any(|record| executed_by(record) == Some(tid))
}

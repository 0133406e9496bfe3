//! The logs of all systems, and the clauses that they break.

use crate::clause::Clause;
use crate::queue::Queue;
use crate::system_log::SystemLog;
use ale_base::{OutOfMemory, SystemNo, Tid};
use std::alloc::Global;
use unit_core::{AleUnit, Record};

/// The logs of all systems from the first on, and the units that each committed.
#[derive(Drop)]
pub struct Logs<'a> {
    alloc: Global,
    systems: Vec<SystemLog<'a>>,
    /// What is read of a system that there is not: no log.
    none: SystemLog<'a>,
}

impl<'a> Logs<'a> {
    /// No system yet.
    pub fn new(alloc: Global) -> Logs<'a> {
        Logs {
            alloc,
            systems: Vec::new(alloc),
            none: SystemLog::none(alloc),
        }
    }

    /// Adds the next system: its log, and the units that it committed.
    pub fn add(&mut self, log: &'a [Record], committed: &'a [AleUnit]) -> Result<(), OutOfMemory> {
        self.systems
            .push(SystemLog::of(self.alloc, log, committed)?)?;
        Ok(())
    }

    /// Whether the logs keep each clause of the law.
    pub fn keep_all(&self) -> bool {
        Clause::ALL.iter().all(|clause| self.keep(*clause))
    }

    /// The names of the clauses that the logs break, a line each, or `no clause broken`.
    pub fn broken(&self) -> Result<Vec<u8>, OutOfMemory> {
        let mut text = Vec::new(self.alloc);
        for clause in Clause::ALL {
            if !self.keep(clause) {
                text.extend_from_slice(clause.name())?;
                text.push(b'\n')?;
            }
        }
        if text.is_empty() {
            text.extend_from_slice(b"no clause broken\n")?;
        }
        Ok(text)
    }

    /// Whether the log of each system keeps a clause.
    fn keep(&self, clause: Clause) -> bool {
        for (place, system) in self.systems.iter().enumerate() {
            if !self.is_kept(clause, place, system) {
                return false;
            }
        }
        true
    }

    /// Whether the log of the system at a place keeps a clause.
    fn is_kept(&self, clause: Clause, place: usize, system: &SystemLog) -> bool {
        match clause {
            Clause::TakenOnce => system.took_once(),
            Clause::TakenWasCommitted => self.took_committed(place, system),
            Clause::TakenInOrder => self.took_in_order(system),
            Clause::ExecutedInOrder => system.executed_once() && system.executed_in_order(),
            _ => system
                .log
                .iter()
                .all(|record| self.is_borne_out(clause, system, record)),
        }
    }

    /// Whether each unit that the system at a place took in is, byte for byte, one that its sender committed for it.
    fn took_committed(&self, place: usize, system: &SystemLog) -> bool {
        for unit in &system.taken {
            let is_here = unit.receiver.get() as usize - 1 == place;
            if !is_here || !self.of(unit.sender).committed.as_slice().contains(unit) {
                return false;
            }
        }
        true
    }

    /// Whether of each outbound queue the units that a system took in are the first of those committed.
    fn took_in_order(&self, system: &SystemLog) -> bool {
        for unit in &system.taken {
            if !self.keeps_outbound(system, unit) {
                return false;
            }
        }
        true
    }

    /// Whether of each outbound queue of one unit the units that a system took in are the first of those committed.
    fn keeps_outbound(&self, system: &SystemLog, unit: &AleUnit) -> bool {
        let sender = self.of(unit.sender);
        for name in &unit.outq {
            let queue = Queue::Outbound(unit.sender, unit.receiver, *name);
            if !queue.is_kept(system.taken.as_slice(), sender.committed.as_slice()) {
                return false;
            }
        }
        true
    }

    /// Whether what a record says of its unit is so by the log of the other system.
    fn is_borne_out(&self, clause: Clause, system: &SystemLog, record: &Record) -> bool {
        match (clause, record) {
            (Clause::DoneWasTaken, Record::Done { tid }) => self.was_taken(system, *tid),
            (Clause::ForgottenWasDone, Record::Forget { tid }) => self
                .of(tid.system())
                .has_done(*tid),
            (Clause::EndedWasForgotten, Record::Ended { tid }) => self.was_forgotten(system, *tid),
            _ => true,
        }
    }

    /// Whether the unit of an id, as a system committed it, was taken in by its receiver.
    fn was_taken(&self, sender: &SystemLog, tid: Tid) -> bool {
        match sender.unit(tid) {
            Some(unit) => self.of(unit.receiver).taken.as_slice().contains(&unit),
            None => false,
        }
    }

    /// Whether the unit of an id, as a system committed it, was forgotten by its receiver.
    fn was_forgotten(&self, sender: &SystemLog, tid: Tid) -> bool {
        match sender.unit(tid) {
            Some(unit) => self.of(unit.receiver).has_forgotten(tid),
            None => false,
        }
    }

    /// The log of a system.
    fn of(&self, system: SystemNo) -> &SystemLog<'a> {
        self.systems
            .get(system.get() as usize - 1)
            .unwrap_or(&self.none)
    }
}

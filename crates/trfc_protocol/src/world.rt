//! A world: the logs of all systems and the claims of their workers, what is read off it, and the ways to change it. They do
//! as they are told: what may happen, `step` decides.

ghost use Rattle.std.specs.Prelude.{◌≡◌};

use crate::{Held, HeldKind};
use ale_base::{Items, OutOfMemory, SystemNo, Tid};
use std::alloc::Global;
use std::mem;
use unit_core::Record;

/// A system: its log, whether it is up, and for one that is down the record that it may find at its opening.
#[derive(Drop)]
pub struct SystemState {
    /// The records, in order.
    pub log: Items<Record>,
    /// Whether it is up.
    pub up: bool,
    /// The record that it was writing as it fell.
    pub rest: Option<Record>,
}

impl SystemState {
    ghost use Rattle.std.specs.Prelude.{◌≡◌, OnOk, OnErr};
    ghost use Rattle.trfc_protocol.specs.Worlds.{state_with, state_without_last, state_down, state_open, log_with, last_of};

    /// Adds a record to the log.
    fn add(&mut self, next: Record) -> Result<(), OutOfMemory>
        ensures ok { OnOk result (self.new ≡ state_with next self.old) }
        ensures err { OnErr result (self.new ≡ self.old) }
    {
        self.log.push(next)
    }

    /// Takes the last record of the log away, and gives it.
    fn take_back(&mut self, alloc: Global) -> Option<Record>
        ensures state { self.new ≡ state_without_last self.old }
        ensures last { result ≡ last_of self.old.log }
    {
        let mut records = mem::replace(&mut self.log, Items::new(alloc)).into_vec();
        let last = records.pop();
        self.log = Items::from_vec(records);
        last
    }

    /// Goes down, with what it may find at its opening.
    fn fall(&mut self, rest: Option<Record>)
        ensures { self.new ≡ state_down rest self.old }
    {
        self.up = false;
        self.rest = rest;
    }

    /// Finds what it may find, and is up.
    fn open(&mut self) -> Result<(), OutOfMemory>
        ensures ok { OnOk result (self.new ≡ state_open self.old) }
        ensures err { OnErr result (self.new ≡ self.old) }
    {
        self.find()?;
        self.up = true;
        self.rest = None;
        Ok(())
    }

    /// Adds a copy of what it may find to the log. It is the copy, so that nothing is lost where memory runs out.
    fn find(&mut self) -> Result<(), OutOfMemory>
        ensures ok { OnOk result (self.new ≡ record self.old { log = log_with self.old.log self.old.rest }) }
        ensures err { OnErr result (self.new ≡ self.old) }
    {
        let found = match &self.rest {
            Some(rest) => rest.copied()?,
            None => return Ok(()),
        };
        self.log.push(found)
    }
}

/// All systems of a landscape, and the claims of their workers.
///
/// Its methods, by file: here a system, its log and a claim, and the changes of a log, a claim and a system that falls or is
/// opened; in `start` a world that begins with given logs; in `offered` what a system committed and offers, which unit is
/// offered, and how an arrival is answered; in `keeping` which record a system may be writing as it falls; in `happens` and
/// below what each event makes of the world, for `step` alone.
#[derive(Drop)]
pub struct World<R> {
    /// The rules by which the logs are read.
    pub rules: R,
    /// The systems. The first has number 1.
    pub systems: Items<SystemState>,
    /// The claims, in the order in which they were made.
    pub claims: Items<Held>,
    /// How often a system fell. It does not rise past the greatest number.
    pub falls: u64,
    /// The number of the next claim.
    pub next_number: u64,
}

impl<R> World<R> {
    ghost use Rattle.std.specs.Prelude.{◌≡◌, ◌-◌, ◌^◌, is_some, IsErr, OnOk, OnErr};
    ghost use Rattle.std.specs.Option.{option_copied};
    ghost use Rattle.trfc_protocol.specs.Worlds.{state_of, log_of, rest_of, is_up, is_claimed, is_claimed_at, claim_of, last_of, state_without_last, state_down, state_open, with_state, with_record, with_claim, without_claim, with_fall};

    /// The state of a system. None exactly where the landscape has no system of this number.
    fn state(&self, system: SystemNo) -> Option<&SystemState>
        ensures { option_copied result ≡ state_of self.now.systems system }
    {
        let number = system.get();
        self.systems.get(number as usize - 1)
    }

    /// Whether the landscape has a system of this number.
    pub fn is_known(&self, system: SystemNo) -> bool
        ensures { result ≡ is_some (state_of self.now.systems system) }
    {
        self.state(system).is_some()
    }

    /// The log of a system. It is empty where the landscape has no system of this number.
    pub fn log(&self, system: SystemNo) -> &[Record]
        ensures { result.now ≡ log_of self.now system }
    {
        match self.state(system) {
            Some(state) => state.log.as_slice(),
            None => &[],
        }
    }

    /// Whether a system is up.
    pub fn is_up(&self, system: SystemNo) -> bool
        ensures { result ≡ is_up self.now system }
    {
        match self.state(system) {
            Some(state) => state.up,
            None => false,
        }
    }

    /// Whether a claim of this kind holds the unit.
    pub fn is_claimed(&self, kind: HeldKind, tid: Tid) -> bool
        ensures { result ≡ is_claimed kind tid self.now.claims }
    {
        self.claims
            .iter()
            .any(|held| held.kind == kind && held.tid == tid)
    }

    /// Whether a claim of this kind holds the unit at a system.
    pub(crate) fn is_claimed_at(&self, kind: HeldKind, system: SystemNo, tid: Tid) -> bool
        ensures { result ≡ is_claimed_at kind system tid self.now.claims }
    {
        self.claims.iter().any(|held| held.kind == kind && held.system == system && held.tid == tid)
    }

    /// The claim of this number.
    pub fn claim_of(&self, number: u64) -> Option<&Held>
        ensures { option_copied result ≡ claim_of number self.now.claims }
    {
        self.claims.iter().find(|held| held.number == number)
    }

    /// The record that a system may find at its opening. In a safe world one that is up has none.
    pub fn rest(&self, system: SystemNo) -> Option<&Record>
        ensures { option_copied result ≡ rest_of self.now system }
    {
        match self.state(system) {
            Some(state) => state.rest.as_ref(),
            None => None,
        }
    }

    /// Appends a record to the log of a system. After an `Err` nothing changed.
    pub fn append(&mut self, system: SystemNo, next: Record) -> Result<(), OutOfMemory>
        ensures ok { OnOk result (self.new ≡ with_record self.old system next) }
        ensures err { OnErr result (self.new ≡ self.old) }
    {
        let at = system.get() as usize - 1;
        if at < self.systems.len() {
            self.systems.at_mut(at).add(next)?;
        }
        Ok(())
    }

    /// Takes the last record of a system's log away, and gives it. None where there is none. It takes no memory.
    pub fn take_back(&mut self, alloc: Global, system: SystemNo) -> Option<Record>
        ensures without { self.new ≡ with_state self.old system state_without_last }
        ensures last { result ≡ last_of (log_of self.old system) }
    {
        let at = system.get() as usize - 1;
        if at < self.systems.len() {
            self.systems.at_mut(at).take_back(alloc)
        } else {
            None
        }
    }

    /// A system that is up falls, with the record that it may find at its opening: all claims go, and one fall more is counted.
    /// It takes no memory. For a system that is down already there is `fall_empty`.
    pub fn fall(&mut self, alloc: Global, system: SystemNo, rest: Option<Record>)
        ensures { self.new ≡ with_fall self.old system rest }
    {
        self.claims = Items::new(alloc);
        self.falls = self.falls.saturating_add(1);
        self.lie_down(system, rest);
    }

    /// A system is down, with the record that it may find at its opening.
    pub(crate) fn lie_down(&mut self, system: SystemNo, rest: Option<Record>)
        ensures { self.new ≡ with_state self.old system (state_down rest) }
    {
        let at = system.get() as usize - 1;
        if at < self.systems.len() {
            self.systems.at_mut(at).fall(rest);
        }
    }

    /// A system is up, and its log has what it found. After an `Err` nothing changed.
    pub fn open(&mut self, system: SystemNo) -> Result<(), OutOfMemory>
        ensures ok { OnOk result (self.new ≡ with_state self.old system state_open) }
        ensures err { OnErr result (self.new ≡ self.old) }
    {
        let at = system.get() as usize - 1;
        if at < self.systems.len() {
            self.systems.at_mut(at).open()?;
        }
        Ok(())
    }

    /// Makes a claim, under the next number. There is no number left where that is the greatest, so the answer is an `Err`
    /// then. After an `Err` nothing changed.
    pub fn claim(&mut self, tid: Tid, system: SystemNo, kind: HeldKind) -> Result<(), OutOfMemory>
        ensures ok { OnOk result (self.new ≡ with_claim self.old tid system kind) }
        ensures none_left { self.old.next_number ≡ 2 ^ 64 - 1 → IsErr result }
        ensures err { OnErr result (self.new ≡ self.old) }
    {
        let number = self.next_number;
        if number == u64::MAX {
            return Err(OutOfMemory);
        }
        self.claims.push(Held {
            number,
            tid,
            system,
            kind,
        })?;
        self.next_number = number + 1;
        Ok(())
    }

    /// Drops the claim of this number.
    pub fn release(&mut self, number: u64)
        ensures { self.new ≡ without_claim self.old number }
    {
        self.claims.retain(|held| held.number != number);
    }
}

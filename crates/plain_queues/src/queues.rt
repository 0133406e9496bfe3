//! The queues, and what changes them. Asking is in `queues/asking.rt`.

ghost use Rattle.std.specs.Prelude.{◌≡◌, map, position};
ghost use Rattle.ale_base.specs.Tid.{is_tid};
ghost use Rattle.unit_core.specs.Once.{NoneTwice};
ghost use Rattle.plain_queues.specs.Queues.{tids_of};
ghost use Rattle.plain_queues.specs.Changes.{changed_if};

mod asking;

use crate::queued_unit::QueuedUnit;
use crate::{Claim, MOST_QUEUES, NotOffered, QueueKey, Steps};
use ale_base::{Items, Mark, OutOfMemory, Tid};
use std::alloc::Global;
use std::marker::Model;
use std::sync::ledger::Ledger;

/// The units that were added and are not finished, in the order in which they were added, with their claims and marks, and the
/// stopped queues. Contracts see both lists. `new`, `add` and what changes a unit or a stop are here, all questions in
/// `queues/asking.rt`.
#[derive(Drop)]
pub struct Queues {
    alloc: Global,
    units: Items<QueuedUnit>,
    stops: Items<QueueKey>,
}

impl Model for Queues {
    ghost use Rattle.plain_queues.specs.Queues.{QueuesOf};

    ghost Value = { QueuesOf };

    ghost use Rattle.unit_core.specs.Once.{NoneTwice};
    ghost use Rattle.plain_queues.specs.Queues.{tids_of};

    ghost view = { λ queues. record { units = queues.units; stops = queues.stops } };

    ghost invariant = { λ queues. NoneTwice (tids_of queues.units) };
}

impl Queues {
    ghost use Rattle.std.specs.Prelude.{◌≡◌, ◌+◌, ◌≤◌, ◌↔◌, true, length, IsOk, OnOk, OnErr, IfOk};
    ghost use Rattle.std.specs.Result.{result_err};
    ghost use Rattle.plain_queues.specs.Keys.{keys_differ};
    ghost use Rattle.plain_queues.specs.Queues.{no_queues, unit_of, claim_of};
    ghost use Rattle.plain_queues.specs.Offered.{is_offered, is_free, why_not};
    ghost use Rattle.plain_queues.specs.Changes.{added, claimed, released, marked, finished, retried, Stops, Starts, most_looks};

    /// No units, and no queue is stopped. It takes no memory.
    pub fn new(alloc: Global) -> Queues
        ensures { result ≡ no_queues }
    {
        Queues {
            alloc,
            units: Items::new(alloc),
            stops: Items::new(alloc),
        }
    }

    /// Adds a unit behind all others: it joins each of its queues at the end. It is not claimed and not marked. After an `Err` all
    /// is as before. No other call on the unit takes memory.
    pub fn add(&mut self, tid: Tid, keys: &[QueueKey]) -> Result<(), OutOfMemory>
        requires new { unit_of tid self.old ≡ None }
        requires few { length keys.now ≤ MOST_QUEUES }
        requires different { keys_differ keys.now ≡ true }
        ensures ok { OnOk result (self.new ≡ added tid keys.now self.old) }
        ensures err { OnErr result (self.new ≡ self.old) }
    {
        let keys = Items::from_slice(self.alloc, keys)?;
        self.units.push(QueuedUnit {
            tid,
            keys,
            claim: None,
            mark: None,
        })?;
        Ok(())
    }

    /// Claims the unit of this id under a number. An `Err` says why it is not offered, as `why_not` does, and changes nothing.
    pub fn claim(&mut self, tid: Tid, number: u64) -> Result<Claim, NotOffered>
        ensures claim { IfOk result (λ claim. claim ≡ record { number = number; tid = tid }) }
        ensures ok { OnOk result (self.new ≡ claimed number tid self.old) }
        ensures why_not { result_err result ≡ why_not tid self.old }
        ensures offered { IsOk result ↔ (is_offered tid self.old ≡ true) }
        ensures err { OnErr result (self.new ≡ self.old) }
    {
        match self.why_not(tid) {
            Some(why) => Err(why),
            None => {
                set_claim(&mut self.units, tid, Some(number));
                Ok(Claim { number, tid })
            }
        }
    }

    /// Claims the unit of this id, which is free, under a number. Its queues may be stopped: so a log has its claims, since a record that
    /// ends one may stand behind a Stop.
    pub fn hold(&mut self, tid: Tid, number: u64)
        requires free { is_free tid self.old ≡ true }
        ensures { self.new ≡ claimed number tid self.old }
    {
        set_claim(&mut self.units, tid, Some(number));
    }

    /// Gives a claim up. All else stays.
    pub fn release(&mut self, claim: Claim)
        requires held { claim_of claim.tid self.old ≡ Some claim.number }
        ensures { self.new ≡ released claim.tid self.old }
    {
        set_claim(&mut self.units, claim.tid, None);
    }

    /// Gives a claim up and marks the unit, so that it waits until it is retried. All else stays.
    pub fn mark(&mut self, claim: Claim, mark: Mark)
        requires held { claim_of claim.tid self.old ≡ Some claim.number }
        ensures { self.new ≡ marked mark claim.tid self.old }
    {
        set_claim(&mut self.units, claim.tid, None);
        set_mark(&mut self.units, claim.tid, Some(mark));
    }

    /// The unit of a claim goes, from all its queues. All other units, claims and marks stay, and all stops. It counts no more
    /// looks at queue entries than the unit has queues and it gives new heads to; this body counts none.
    pub fn finish<L: Ledger>(&mut self, claim: Claim, steps: &mut Steps<L>)
        requires held { claim_of claim.tid self.old ≡ Some claim.number }
        ensures finished { self.new ≡ finished claim.tid self.old }
        ensures cost { steps.new ≤ steps.old + most_looks claim.tid self.old }
    {
        let _uncounted = steps;
        self.units.retain(|unit| unit.tid != claim.tid);
    }

    /// Removes the mark of the unit of this id. Where there is no such unit or it is not marked, nothing changes.
    pub fn retry(&mut self, tid: Tid)
        ensures { self.new ≡ retried tid self.old }
    {
        set_mark(&mut self.units, tid, None);
    }

    /// Stops a queue, whether or not a unit is in it: no unit of it is offered until it is started. All else stays. After an
    /// `Err` all is as before.
    pub fn stop(&mut self, key: QueueKey) -> Result<(), OutOfMemory>
        ensures ok { OnOk result (Stops key self.old self.new) }
        ensures err { OnErr result (self.new ≡ self.old) }
    {
        self.stops.push(key)?;
        Ok(())
    }

    /// Starts a queue, whether or not it was stopped. All else stays.
    pub fn start(&mut self, key: QueueKey)
        ensures { Starts key self.old self.new }
    {
        self.stops.retain(|other| *other != key);
    }
}

/// Writes the claim of the unit of this id, where there is one.
fn set_claim(units: &mut Items<QueuedUnit>, tid: Tid, claim: Option<u64>)
    requires apart { NoneTwice (tids_of units.old) }
    ensures changed { units.new ≡ map (changed_if (λ unit. record unit { claim = claim }) tid) units.old }
    ensures apart { NoneTwice (tids_of units.new) }
{
    match place_of(units, tid) {
        Some(place) => units.at_mut(place).claim = claim,
        None => {}
    }
}

/// Writes the mark of the unit of this id, where there is one.
fn set_mark(units: &mut Items<QueuedUnit>, tid: Tid, mark: Option<Mark>)
    requires apart { NoneTwice (tids_of units.old) }
    ensures changed { units.new ≡ map (changed_if (λ unit. record unit { mark = mark }) tid) units.old }
    ensures apart { NoneTwice (tids_of units.new) }
{
    match place_of(units, tid) {
        Some(place) => units.at_mut(place).mark = mark,
        None => {}
    }
}

/// The place of the unit of this id.
fn place_of(units: &Items<QueuedUnit>, tid: Tid) -> Option<usize>
    ensures { result ≡ position (λ unit. is_tid unit.tid tid) units.now }
{
    units.iter().position(|unit| unit.tid == tid)
}

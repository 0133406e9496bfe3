//! The queues of a running system, and what changes them. Asking is in `queues/asking.rt`.

mod asking;

use crate::counting::Counting;
use crate::names::{Name, queue_of};
use crate::numbering::{number_in, numbers_in};
use crate::places::{Number, place_of};
use ale_base::{Mark, OutOfMemory, Tid};
use plain_queues::{Claim, MOST_QUEUES, NotOffered, QueueKey, Steps};
use std::alloc::Global;
use std::collections::BTreeMap;
use std::marker::Model;
use std::sync::ledger::Ledger;

/// The units that were added and are not finished, in the order in which they were added, with their claims and marks, and the
/// stopped queues.
#[derive(Drop)]
pub struct Queues {
    alloc: Global,
    counting: Counting,
    places: BTreeMap<Number, usize>,
    names: BTreeMap<Name, usize>,
}

impl Model for Queues {
    ghost use Rattle.plain_queues.specs.Queues.{QueuesOf};

    ghost Value = { QueuesOf };

    ghost use Rattle.std.specs.BTreeMap.{get};
    ghost use Rattle.multi_queue.specs.Seen.{seen, numbers_cmp, names_cmp, IsQueues};

    ghost view = { λ queues. seen queues.counting.units queues.counting.lanes };

    ghost invariant = { λ queues. IsQueues queues.counting.units queues.counting.lanes queues.counting.board (get numbers_cmp queues.places) (get names_cmp queues.names) };
}

impl Queues {
    ghost use Rattle.std.specs.Prelude.{◌≡◌, ◌↔◌, ◌+◌, ◌≤◌, Some, None, true, false, length, IsOk, OnOk, OnErr, IfOk};
    ghost use Rattle.std.specs.Option.{is_none};
    ghost use Rattle.std.specs.Result.{result_err};
    ghost use Rattle.plain_queues.specs.Keys.{keys_differ};
    ghost use Rattle.plain_queues.specs.Queues.{no_queues, unit_of, claim_of};
    ghost use Rattle.plain_queues.specs.Offered.{is_offered, is_free, why_not};
    ghost use Rattle.plain_queues.specs.Changes.{added, changed, claimed, marked, released, finished, retried, Stops, Starts, most_looks};

    /// No units, and no queue is stopped. It takes no memory.
    pub fn new(alloc: Global) -> Queues
        ensures { result ≡ no_queues }
    {
        Queues {
            alloc,
            counting: Counting::new(alloc),
            places: BTreeMap::new(alloc),
            names: BTreeMap::new(alloc),
        }
    }

    /// Adds a unit behind all others: it joins each of its queues at the end. It is not claimed and not marked. After an `Err` all
    /// is as before. No other call on the unit takes memory.
    pub fn add(&mut self, tid: Tid, keys: &[QueueKey]) -> Result<(), OutOfMemory>
        requires new { unit_of tid self.old ≡ None }
        requires few { length keys.now ≤ MOST_QUEUES }
        requires different { keys_differ keys.now ≡ true }
        ensures ok { OnOk result (self.new ≡ added tid keys.now self.old) }
        ensures err { OnErr result (self.new ≡ self.old) }
    {
        let numbers = match numbers_in(
            self.alloc,
            &mut self.counting.lanes,
            &mut self.names,
            keys,
        ) {
            Ok(numbers) => numbers,
            Err(short) => return Err(short),
        };
        let place = match self.counting.make_room(self.alloc, &mut self.places, tid) {
            Ok(place) => place,
            Err(short) => return Err(short),
        };
        self.counting.enter(place, numbers.as_slice())
    }

    /// Claims the unit of this id under a number. An `Err` says why it is not offered, as `why_not` does, and changes nothing.
    pub fn claim(&mut self, tid: Tid, number: u64) -> Result<Claim, NotOffered>
        ensures claim { IfOk result (λ claim. claim ≡ record { number = number; tid = tid }) }
        ensures ok { OnOk result (self.new ≡ claimed number tid self.old) }
        ensures why_not { result_err result ≡ why_not tid self.old }
        ensures offered { IsOk result ↔ (is_offered tid self.old ≡ true) }
        ensures err { OnErr result (self.new ≡ self.old) }
    {
        match self.why_not(tid) {
            Some(why) => Err(why),
            None => {
                self.write_claim(tid, Some(number));
                Ok(Claim { number, tid })
            }
        }
    }

    /// Claims the unit of this id, which is free, under a number. Its queues may be stopped: so a log has its claims, since a record that
    /// ends one may stand behind a Stop.
    pub fn hold(&mut self, tid: Tid, number: u64)
        requires free { is_free tid self.old ≡ true }
        ensures { self.new ≡ claimed number tid self.old }
    {
        self.write_claim(tid, Some(number));
    }

    /// Gives a claim up. All else stays.
    pub fn release(&mut self, claim: Claim)
        requires held { claim_of claim.tid self.old ≡ Some claim.number }
        ensures { self.new ≡ released claim.tid self.old }
    {
        self.write_claim(claim.tid, None);
    }

    /// Gives a claim up and marks the unit, so that it waits until it is retried. All else stays.
    pub fn mark(&mut self, claim: Claim, mark: Mark)
        requires held { claim_of claim.tid self.old ≡ Some claim.number }
        ensures { self.new ≡ marked mark claim.tid self.old }
    {
        let tid = claim.tid;
        self.release(claim);
        self.write_mark(tid, Some(mark));
    }

    /// The unit of a claim goes, from all its queues. All other units, claims and marks stay, and all stops. It counts no more
    /// looks at queue entries than the unit has queues and it gives new heads to.
    pub fn finish<L: Ledger>(&mut self, claim: Claim, steps: &mut Steps<L>)
        requires held { claim_of claim.tid self.old ≡ Some claim.number }
        ensures finished { self.new ≡ finished claim.tid self.old }
        ensures cost { steps.new ≤ steps.old + most_looks claim.tid self.old }
    {
        match place_of(&self.counting.units, &self.places, claim.tid) {
            Some(place) => self.counting.take_away(place, steps),
            None => {}
        }
    }

    /// Removes the mark of the unit of this id. Where there is no such unit or it is not marked, nothing changes.
    pub fn retry(&mut self, tid: Tid)
        ensures { self.new ≡ retried tid self.old }
    {
        self.write_mark(tid, None);
    }

    /// Stops a queue, whether or not a unit is in it: no unit of it is offered until it is started. All else stays. After an
    /// `Err` all is as before.
    pub fn stop(&mut self, key: QueueKey) -> Result<(), OutOfMemory>
        ensures ok { OnOk result (Stops key self.old self.new) }
        ensures err { OnErr result (self.new ≡ self.old) }
    {
        let queue = number_in(self.alloc, &mut self.counting.lanes, &mut self.names, &key)?;
        self.counting.write_stop(queue, true);
        Ok(())
    }

    /// Starts a queue, whether or not it was stopped. All else stays.
    pub fn start(&mut self, key: QueueKey)
        ensures { Starts key self.old self.new }
    {
        match queue_of(&self.names, &key) {
            Some(queue) => self.counting.write_stop(queue, false),
            None => {}
        }
    }

    /// Writes the claim of the unit of this id, where there is one. Only a free unit gets one.
    fn write_claim(&mut self, tid: Tid, claim: Option<u64>)
        requires free { is_none claim ≡ false → is_free tid self.old ≡ true }
        ensures { self.new ≡ changed (λ unit. record unit { claim = claim }) tid self.old }
    {
        match place_of(&self.counting.units, &self.places, tid) {
            Some(place) => self.counting.set_claim(place, claim),
            None => {}
        }
    }

    /// Writes the mark of the unit of this id, where there is one.
    fn write_mark(&mut self, tid: Tid, mark: Option<Mark>)
        ensures { self.new ≡ changed (λ unit. record unit { mark = mark }) tid self.old }
    {
        match place_of(&self.counting.units, &self.places, tid) {
            Some(place) => self.counting.set_mark(place, mark),
            None => {}
        }
    }
}

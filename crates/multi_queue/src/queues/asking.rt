//! Questions to the queues, which change nothing.

use super::Queues;
use crate::names::queue_of;
use crate::places::place_of;
use crate::reasons::{free_at, why_not_at};
use ale_base::{Items, Mark, OutOfMemory, Tid};
use plain_queues::{Claim, NotOffered, QueueCount, QueueKey, QueueStatus};
use std::alloc::Global;

impl Queues {
    ghost use Rattle.std.specs.Prelude.{◌≡◌, ◌↔◌, true, false, Some, IsTrue, IsNone, IsSome, IfSome, IfOk, []};
    ghost use Rattle.ale_base.specs.Tid.{TidOf};
    ghost use Rattle.plain_queues.specs.Queues.{unit_of, claim_of, mark_on, in_queue};
    ghost use Rattle.plain_queues.specs.Offered.{is_offered, is_free, first_offered, why_not};
    ghost use Rattle.plain_queues.specs.Status.{status_of};
    ghost use Rattle.plain_queues.specs.Lines.{AreLinesOf};

    /// Whether the unit of this id is offered: it is here, not claimed, not marked, heads each of its queues, and none of these is
    /// stopped.
    pub fn offered(&self, tid: Tid) -> bool
        ensures { result ≡ is_offered tid self.now }
    {
        match place_of(&self.counting.units, &self.places, tid) {
            Some(place) => self.counting.board.ready_at(&self.counting.units, place),
            None => false,
        }
    }

    /// Whether the unit of this id is free: it is here, not claimed, not marked, and heads each of its queues, which may be stopped.
    pub fn is_free(&self, tid: Tid) -> bool
        ensures { result ≡ is_free tid self.now }
    {
        match place_of(&self.counting.units, &self.places, tid) {
            Some(place) => free_at(&self.counting.lanes, place, &self.counting.units[place]),
            None => false,
        }
    }

    /// Whether a unit of this id is here.
    pub fn contains(&self, tid: Tid) -> bool
        ensures { IsTrue result ↔ IsSome (unit_of tid self.now) }
    {
        match place_of(&self.counting.units, &self.places, tid) {
            Some(_) => true,
            None => false,
        }
    }

    /// Whether the unit of a claim is claimed under its number.
    pub fn holds(&self, claim: &Claim) -> bool
        ensures { IsTrue result ↔ (claim_of claim.now.tid self.now ≡ Some claim.now.number) }
    {
        match place_of(&self.counting.units, &self.places, claim.tid) {
            Some(place) => self.counting.units[place].claim == Some(claim.number),
            None => false,
        }
    }

    /// The mark of the unit of this id. None where no such unit is here, or it is not marked.
    pub fn mark_on(&self, tid: Tid) -> Option<Mark>
        ensures { result ≡ mark_on tid self.now }
    {
        match place_of(&self.counting.units, &self.places, tid) {
            Some(place) => self.counting.units[place].mark,
            None => None,
        }
    }

    /// The id of the offered unit that was added first. None exactly where no unit is offered.
    pub fn first_offered(&self) -> Option<Tid>
        ensures first { result ≡ first_offered self.now }
        ensures offered { IfSome result (λ tid. is_offered tid self.now ≡ true) }
        ensures none { IsNone result ↔ ((tid : TidOf) → is_offered tid self.now ≡ false) }
    {
        if self.counting.units.is_empty() {
            return None;
        }
        match self.counting.board.next_place(&self.counting.units) {
            Some(place) => Some(self.counting.units[place].tid),
            None => None,
        }
    }

    /// Why the unit of this id is not offered: the first that applies. None exactly where it is offered.
    pub fn why_not(&self, tid: Tid) -> Option<NotOffered>
        ensures why { result ≡ why_not tid self.now }
        ensures none { IsNone result ↔ (is_offered tid self.now ≡ true) }
    {
        match place_of(&self.counting.units, &self.places, tid) {
            Some(place) => why_not_at(
                &self.counting.units,
                &self.counting.lanes,
                place,
                &self.counting.units[place],
            ),
            None => Some(NotOffered::Unknown),
        }
    }

    /// The status of a queue. None exactly where it is empty.
    pub fn status(&self, key: QueueKey) -> Option<QueueStatus>
        ensures status { result ≡ status_of key self.now }
        ensures none { IsNone result ↔ (in_queue key self.now ≡ []) }
    {
        match queue_of(&self.names, &key) {
            Some(queue) => self.counting.status_at(queue),
            None => None,
        }
    }

    /// Each queue that holds a unit, once, in ascending order of its partner and then of its name in byte order, with the number of
    /// its units and its status. It goes once over the queues that were ever used.
    pub fn lines(&self, alloc: Global) -> Result<Items<QueueCount>, OutOfMemory>
        ensures { IfOk result (AreLinesOf self.now) }
    {
        self.counting.lines(alloc, &self.names)
    }
}

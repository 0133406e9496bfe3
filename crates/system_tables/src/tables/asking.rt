//! Questions to the tables, which change nothing.

use super::SystemTables;
use crate::Application;
use ale_base::{Items, Mark, OutOfMemory, Tid, Way};
use multi_queue::{NotOffered, QueueCount, QueueKey, QueueStatus, Queues};
use std::alloc::Global;
use tid_table::Tids;
use unit_core::AleUnit;

impl<A: Application> SystemTables<A> {
    ghost use Rattle.std.specs.Prelude.{◌≡◌, length, is_some, IfOk};
    ghost use Rattle.std.specs.Option.{option_copied};
    ghost use Rattle.unit_core.specs.Queues.{is_listed};
    ghost use Rattle.plain_queues.specs.Queues.{unit_of, mark_on};
    ghost use Rattle.plain_queues.specs.Offered.{is_offered, is_free, first_offered, why_not};
    ghost use Rattle.plain_queues.specs.Status.{status_of};
    ghost use Rattle.plain_queues.specs.Lines.{AreLinesOf};
    ghost use Rattle.system_tables.specs.Tables.{unit_numbered, queues_of};

    /// The units that the system committed, and those entered, in their order.
    pub fn units(&self) -> &[AleUnit]
        ensures { result.now ≡ self.now.units }
    {
        self.units.as_slice()
    }

    /// The unit that was committed under this number, from 1. None exactly where there is none.
    pub fn unit(&self, number: u32) -> Option<&AleUnit>
        ensures { option_copied result ≡ unit_numbered number self.now.units }
    {
        if number == 0 {
            return None;
        }
        self.units.get(number as usize - 1)
    }

    /// How many units were committed.
    pub fn count(&self) -> usize
        ensures { result ≡ length self.now.units }
    {
        self.units.len()
    }

    /// The ids of the units that were received, in the order of receipt, whether or not they are forgotten.
    pub fn received(&self) -> &[Tid]
        ensures { result.now ≡ self.now.received }
    {
        self.received.as_slice()
    }

    /// Whether this id was received and is not forgotten.
    pub fn is_seen(&self, tid: Tid) -> bool
        ensures { result ≡ is_listed tid self.now.seen }
    {
        self.seen.seen(tid)
    }

    /// Whether the unit of this id is done and not ended.
    pub fn is_unconfirmed(&self, tid: Tid) -> bool
        ensures { result ≡ is_listed tid self.now.unconfirmed }
    {
        self.unconfirmed.seen(tid)
    }

    /// The ids of the units that are done and not ended.
    pub fn unconfirmed(&self) -> &Tids
        ensures { result.now ≡ self.now.unconfirmed }
    {
        &self.unconfirmed
    }

    /// Whether the unit of this id is in the queues of a direction, whatever keeps it there.
    pub fn is_outstanding(&self, way: Way, tid: Tid) -> bool
        ensures { result ≡ is_some (unit_of tid (queues_of way self.now)) }
    {
        self.queues(way).contains(tid)
    }

    /// Whether the unit of this id is offered in a direction.
    pub fn is_offered(&self, way: Way, tid: Tid) -> bool
        ensures { result ≡ is_offered tid (queues_of way self.now) }
    {
        self.queues(way).offered(tid)
    }

    /// Whether the unit of this id is free in a direction: it is in its queues, not claimed, not marked, and heads each of them. Stops are
    /// not asked.
    pub fn is_free(&self, way: Way, tid: Tid) -> bool
        ensures { result ≡ is_free tid (queues_of way self.now) }
    {
        self.queues(way).is_free(tid)
    }

    /// The id of the offered unit of a direction that was added first. None exactly where no unit is offered.
    pub fn first_offered(&self, way: Way) -> Option<Tid>
        ensures { result ≡ first_offered (queues_of way self.now) }
    {
        self.queues(way).first_offered()
    }

    /// Why the unit of this id is not offered in a direction: the first that applies. None exactly where it is offered.
    pub fn why_not(&self, way: Way, tid: Tid) -> Option<NotOffered>
        ensures { result ≡ why_not tid (queues_of way self.now) }
    {
        self.queues(way).why_not(tid)
    }

    /// The mark of the unit of this id in the queues of a direction. None where it is not there, or is not marked.
    pub fn mark(&self, way: Way, tid: Tid) -> Option<Mark>
        ensures { result ≡ mark_on tid (queues_of way self.now) }
    {
        self.queues(way).mark_on(tid)
    }

    /// The status of a queue of a direction. None exactly where it is empty.
    pub fn status(&self, way: Way, key: QueueKey) -> Option<QueueStatus>
        ensures { result ≡ status_of key (queues_of way self.now) }
    {
        self.queues(way).status(key)
    }

    /// Each queue of a direction that holds a unit, once, in ascending order of its partner and then of its name in byte order, with the
    /// number of its units and its status. It goes once over the queues that were ever used.
    pub fn queue_lines(&self, alloc: Global, way: Way) -> Result<Items<QueueCount>, OutOfMemory>
        ensures { IfOk result (AreLinesOf (queues_of way self.now)) }
    {
        self.queues(way).lines(alloc)
    }

    /// The application's tables.
    pub fn application(&self) -> &A
        ensures { result.now ≡ self.now.application }
    {
        &self.application
    }

    /// The queues of a direction.
    fn queues(&self, way: Way) -> &Queues
        ensures { result.now ≡ queues_of way self.now }
    {
        match way {
            Way::Outgoing => &self.outgoing,
            Way::Incoming => &self.incoming,
        }
    }
}

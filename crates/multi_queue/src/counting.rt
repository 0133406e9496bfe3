//! The units and the queues under a board that counts their heads, and each change of them, with its counts.

ghost use Rattle.std.specs.Prelude.{◌≡◌, ◌<◌, ◌≤◌, ◌+◌, [], Some, None, length, slice_get, slice_set, OnOk, OnErr};
ghost use Rattle.multi_queue.specs.declared.entry.Entry.{Entry};
ghost use Rattle.multi_queue.specs.Counted.{IsKept, HeadsAll, cost_at, left_at, Leaves, Leaving, IsCut, Joining, Joined, IsClaimedAt, KeepsLanes, SetsStop, Parting, IsLastDead, AreNewQueues, IsIn, IsGoneAt, IsEntered};

use crate::board::Board;
use crate::entry::{Entry, Lane};
use ale_base::{Items, Mark, OutOfMemory};
use plain_queues::Steps;
use std::alloc::Global;
use std::marker::Brand;
use std::sync::ledger::{Blank, Ledger};

/// The units, the queues that they are in, and their board. `IsKept` says how they belong together, also where the counts leave one
/// queue out for a while. What changes one unit or one queue is here; room for one more unit is made in `growing.rt`.
#[derive(Drop)]
pub(crate) struct Counting {
    pub(crate) units: Items<Entry>,
    pub(crate) lanes: Items<Lane>,
    pub(crate) board: Board,
}

impl Counting {
    /// No units and no queues. It takes no memory.
    pub(crate) fn new(alloc: Global) -> Counting
        ensures { result ≡ record { units = []; lanes = []; board = record { heads = []; nodes = []; height = 0 } } }
    {
        Counting {
            units: Items::new(alloc),
            lanes: Items::new(alloc),
            board: Board::new(alloc),
        }
    }

    /// Writes the claim of the unit at a place.
    pub(crate) fn set_claim(&mut self, place: usize, claim: Option<u64>)
        requires kept { IsKept None self.old }
        requires within { place < length self.old.units }
        ensures kept { IsKept None self.new }
        ensures unit { (u : Entry) → slice_get self.old.units place ≡ Some u → self.new.units ≡ slice_set self.old.units place (record u { claim = claim }) }
        ensures lanes { self.new.lanes ≡ self.old.lanes }
    {
        self.units.at_mut(place).claim = claim;
        self.board.refresh(&self.units, place);
    }

    /// Writes the mark of the unit at a place.
    pub(crate) fn set_mark(&mut self, place: usize, mark: Option<Mark>)
        requires kept { IsKept None self.old }
        requires within { place < length self.old.units }
        ensures kept { IsKept None self.new }
        ensures unit { (u : Entry) → slice_get self.old.units place ≡ Some u → self.new.units ≡ slice_set self.old.units place (record u { mark = mark }) }
        ensures lanes { self.new.lanes ≡ self.old.lanes }
    {
        self.units.at_mut(place).mark = mark;
        self.board.refresh(&self.units, place);
    }

    /// A unit leaves the last of its queues, which it heads.
    fn take_out(&mut self, place: usize, queue: usize)
        requires kept { IsKept (Some queue) self.old }
        requires known { queue < length self.old.lanes }
        requires leaving { Leaving queue place self.old.units }
        requires within { place < length self.old.units }
        ensures kept { IsKept (Some queue) self.new }
        ensures units { IsCut place self.old.units self.new.units }
        ensures lanes { KeepsLanes self.old.lanes self.new.lanes }
    {
        self.units.at_mut(place).queues.cut();
        self.lanes.at_mut(queue).line.leave_first();
    }

    /// A unit that is claimed leaves the last of its queues, and the next one there heads it.
    fn leave_one<L: Ledger>(&mut self, place: usize, queue: usize, steps: &mut Steps<L>)
        requires kept { IsKept None self.old }
        requires leaving { Leaving queue place self.old.units }
        requires within { place < length self.old.units }
        ensures kept { IsKept None self.new }
        ensures units { IsCut place self.old.units self.new.units }
        ensures heads_all { HeadsAll place self.new.units }
        ensures lanes { KeepsLanes self.old.lanes self.new.lanes }
        ensures cost { steps.new + cost_at place self.new.units ≤ steps.old + cost_at place self.old.units }
    {
        self.board.lower(&self.units, &self.lanes, queue, steps);
        self.take_out(place, queue);
        self.board.raise(&self.units, &self.lanes, queue, steps);
    }

    /// A unit that is claimed leaves all its queues, which it heads.
    fn leave_all<L: Ledger>(&mut self, place: usize, steps: &mut Steps<L>)
        requires kept { IsKept None self.old }
        requires within { place < length self.old.units }
        requires heads_all { HeadsAll place self.old.units }
        requires claimed { IsClaimedAt place self.old.units }
        ensures kept { IsKept None self.new }
        ensures gone { left_at place self.new.units ≡ 0 }
        ensures others { Leaves place self.old.units self.new.units }
        ensures lanes { KeepsLanes self.old.lanes self.new.lanes }
        ensures cost { steps.new ≤ steps.old + cost_at place self.old.units }
    {
        while let Some(queue) = self.units[place].queues.last() {
            self.leave_one(place, queue, steps);
        }
    }

    /// A unit that is claimed leaves all its queues, which it heads, and is finished.
    pub(crate) fn take_away<L: Ledger>(&mut self, place: usize, steps: &mut Steps<L>)
        requires kept { IsKept None self.old }
        requires within { place < length self.old.units }
        requires heads_all { HeadsAll place self.old.units }
        requires claimed { IsClaimedAt place self.old.units }
        ensures kept { IsKept None self.new }
        ensures units { IsGoneAt place self.old.units self.new.units }
        ensures lanes { KeepsLanes self.old.lanes self.new.lanes }
        ensures cost { steps.new ≤ steps.old + cost_at place self.old.units }
    {
        self.leave_all(place, steps);
        let unit = self.units.at_mut(place);
        unit.live = false;
        unit.claim = None;
    }

    /// A queue is stopped or started, where nobody counts looks.
    pub(crate) fn write_stop(&mut self, queue: usize, stopped: bool)
        requires kept { IsKept None self.old }
        requires known { queue < length self.old.lanes }
        ensures kept { IsKept None self.new }
        ensures units { self.new.units ≡ self.old.units }
        ensures lane { SetsStop queue stopped self.old.lanes self.new.lanes }
    {
        self.stop_from::<Brand>(queue, stopped, Blank::new(1));
    }

    /// A queue is stopped or started, by looks that a ledger of its own counts.
    fn stop_from<L: Ledger>(&mut self, queue: usize, stopped: bool, blank: Blank)
        requires kept { IsKept None self.old }
        requires known { queue < length self.old.lanes }
        requires name { blank.name ≡ L.name }
        requires parts { blank.parts ≡ L.parts }
        requires some { 0 < blank.parts }
        ensures kept { IsKept None self.new }
        ensures units { self.new.units ≡ self.old.units }
        ensures lane { SetsStop queue stopped self.old.lanes self.new.lanes }
    {
        let mut steps: Steps<L> = Steps::new(blank);
        self.set_stopped(queue, stopped, &mut steps);
    }

    /// A queue is stopped or started.
    fn set_stopped<L: Ledger>(&mut self, queue: usize, stopped: bool, steps: &mut Steps<L>)
        requires kept { IsKept None self.old }
        requires known { queue < length self.old.lanes }
        ensures kept { IsKept None self.new }
        ensures units { self.new.units ≡ self.old.units }
        ensures lane { SetsStop queue stopped self.old.lanes self.new.lanes }
    {
        self.board.lower(&self.units, &self.lanes, queue, steps);
        self.lanes.at_mut(queue).stopped = stopped;
        self.board.raise(&self.units, &self.lanes, queue, steps);
    }

    /// The last unit joins a queue. After an `Err` all is as before.
    fn put_in(&mut self, place: usize, queue: usize) -> Result<(), OutOfMemory>
        requires kept { IsKept (Some queue) self.old }
        requires known { queue < length self.old.lanes }
        requires joining { Joining queue place self.old.units }
        ensures kept { IsKept (Some queue) self.new }
        ensures others { Leaves place self.old.units self.new.units }
        ensures lanes { KeepsLanes self.old.lanes self.new.lanes }
        ensures ok { OnOk result (Joined queue place self.old.units self.new.units) }
        ensures err { OnErr result (self.new.units ≡ self.old.units) }
    {
        if let Err(short) = self.units.at_mut(place).queues.push(queue) {
            return Err(short);
        }
        match self.lanes.at_mut(queue).line.push(place) {
            Ok(()) => Ok(()),
            Err(short) => {
                self.units.at_mut(place).queues.cut();
                Err(short)
            }
        }
    }

    /// The last unit leaves the last of its queues, in which it is the last.
    fn take_back(&mut self, place: usize, queue: usize)
        requires kept { IsKept (Some queue) self.old }
        requires known { queue < length self.old.lanes }
        requires parting { Parting queue place self.old.units }
        requires within { place < length self.old.units }
        ensures kept { IsKept (Some queue) self.new }
        ensures units { IsCut place self.old.units self.new.units }
        ensures lanes { KeepsLanes self.old.lanes self.new.lanes }
    {
        self.units.at_mut(place).queues.cut();
        self.lanes.at_mut(queue).line.leave_last();
    }

    /// The last unit joins a queue. After an `Err` it is in the queues in which it was.
    fn join_one<L: Ledger>(
        &mut self,
        place: usize,
        queue: usize,
        steps: &mut Steps<L>,
    ) -> Result<(), OutOfMemory>
        requires kept { IsKept None self.old }
        requires known { queue < length self.old.lanes }
        requires joining { Joining queue place self.old.units }
        ensures kept { IsKept None self.new }
        ensures others { Leaves place self.old.units self.new.units }
        ensures lanes { KeepsLanes self.old.lanes self.new.lanes }
        ensures ok { OnOk result (Joined queue place self.old.units self.new.units) }
        ensures err { OnErr result (self.new.units ≡ self.old.units) }
    {
        self.board.lower(&self.units, &self.lanes, queue, steps);
        let joined = self.put_in(place, queue);
        self.board.raise(&self.units, &self.lanes, queue, steps);
        joined
    }

    /// The last unit leaves the last of its queues, in which it is the last.
    fn part_one<L: Ledger>(&mut self, place: usize, queue: usize, steps: &mut Steps<L>)
        requires kept { IsKept None self.old }
        requires parting { Parting queue place self.old.units }
        requires within { place < length self.old.units }
        ensures kept { IsKept None self.new }
        ensures units { IsCut place self.old.units self.new.units }
        ensures lanes { KeepsLanes self.old.lanes self.new.lanes }
    {
        self.board.lower(&self.units, &self.lanes, queue, steps);
        self.take_back(place, queue);
        self.board.raise(&self.units, &self.lanes, queue, steps);
    }

    /// The last unit leaves all its queues, in each of which it is the last.
    fn part_all<L: Ledger>(&mut self, place: usize, steps: &mut Steps<L>)
        requires kept { IsKept None self.old }
        requires last { IsLastDead place self.old.units }
        ensures kept { IsKept None self.new }
        ensures gone { left_at place self.new.units ≡ 0 }
        ensures others { Leaves place self.old.units self.new.units }
        ensures lanes { KeepsLanes self.old.lanes self.new.lanes }
    {
        while let Some(queue) = self.units[place].queues.last() {
            self.part_one(place, queue, steps);
        }
    }

    /// The last unit joins these queues, one after the other. After an `Err` it is in none.
    fn join_all<L: Ledger>(
        &mut self,
        place: usize,
        queues: &[usize],
        steps: &mut Steps<L>,
    ) -> Result<(), OutOfMemory>
        requires kept { IsKept None self.old }
        requires last { IsLastDead place self.old.units }
        requires none { left_at place self.old.units ≡ 0 }
        requires queues { AreNewQueues queues.now self.old.lanes }
        ensures kept { IsKept None self.new }
        ensures others { Leaves place self.old.units self.new.units }
        ensures lanes { KeepsLanes self.old.lanes self.new.lanes }
        ensures ok { OnOk result (IsIn place queues.now self.new.units) }
        ensures err { OnErr result (left_at place self.new.units ≡ 0) }
    {
        for queue in queues {
            if let Err(short) = self.join_one(place, *queue, steps) {
                self.part_all(place, steps);
                return Err(short);
            }
        }
        Ok(())
    }

    /// The last unit, which is in no queue and not live, joins these, one after the other, and is live then. After an `Err` it is as
    /// before.
    pub(crate) fn enter(&mut self, place: usize, queues: &[usize]) -> Result<(), OutOfMemory>
        requires kept { IsKept None self.old }
        requires last { IsLastDead place self.old.units }
        requires none { left_at place self.old.units ≡ 0 }
        requires queues { AreNewQueues queues.now self.old.lanes }
        ensures kept { IsKept None self.new }
        ensures lanes { KeepsLanes self.old.lanes self.new.lanes }
        ensures ok { OnOk result (IsEntered place queues.now self.old.units self.new.units) }
        ensures err { OnErr result (self.new.units ≡ self.old.units) }
    {
        match self.join_from::<Brand>(place, queues, Blank::new(1)) {
            Ok(()) => {
                self.units.at_mut(place).live = true;
                self.board.refresh(&self.units, place);
                Ok(())
            }
            Err(short) => Err(short),
        }
    }

    /// The last unit joins queues, by looks that a ledger of its own counts. After an `Err` it is in none.
    fn join_from<L: Ledger>(
        &mut self,
        place: usize,
        queues: &[usize],
        blank: Blank,
    ) -> Result<(), OutOfMemory>
        requires kept { IsKept None self.old }
        requires last { IsLastDead place self.old.units }
        requires none { left_at place self.old.units ≡ 0 }
        requires queues { AreNewQueues queues.now self.old.lanes }
        requires name { blank.name ≡ L.name }
        requires parts { blank.parts ≡ L.parts }
        requires some { 0 < blank.parts }
        ensures kept { IsKept None self.new }
        ensures others { Leaves place self.old.units self.new.units }
        ensures lanes { KeepsLanes self.old.lanes self.new.lanes }
        ensures ok { OnOk result (IsIn place queues.now self.new.units) }
        ensures err { OnErr result (left_at place self.new.units ≡ 0) }
    {
        let mut steps: Steps<L> = Steps::new(blank);
        self.join_all(place, queues, &mut steps)
    }
}

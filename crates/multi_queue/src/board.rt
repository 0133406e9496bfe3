//! The counts of the heads of queues, and which units are offered by them, as bits in a tree over their places.

ghost use Rattle.std.specs.Prelude.{◌≡◌, ◌<◌, ◌≤◌, ◌+◌, ℕ, [], None, Some, true, false, length, slice_get, MatchOption};
ghost use Rattle.multi_queue.specs.Counted.{is_ready, looks, IsBoardBut, AreKept};

use crate::bits::{first, settle};
use crate::entry::{Entry, Lane};
use ale_base::Items;
use plain_queues::Steps;
use std::alloc::Global;
use std::sync::ledger::Ledger;

/// For each unit, by its place, how many queues it heads that are not stopped; and whether it is offered, as a leaf of a tree of bits.
/// The counts are changed by looking at the queues' first entries.
#[derive(Drop)]
pub(crate) struct Board {
    pub(crate) heads: Items<usize>,
    pub(crate) nodes: Items<bool>,
    pub(crate) height: u32,
}

impl Board {
    /// The board of no units. It takes no memory.
    pub(crate) fn new(alloc: Global) -> Board
        ensures { result ≡ record { heads = []; nodes = []; height = 0 } }
    {
        Board {
            heads: Items::new(alloc),
            nodes: Items::new(alloc),
            height: 0,
        }
    }

    /// Whether the unit at a place is offered.
    pub(crate) fn ready_at(&self, units: &Items<Entry>, place: usize) -> bool
        requires within { place < length units.now }
        requires all { length self.now.heads ≡ length units.now }
        ensures { result ≡ is_ready (slice_get units.now place) (slice_get self.now.heads place) }
    {
        let unit = &units[place];
        unit.live
            && unit.claim.is_none()
            && unit.mark.is_none()
            && self.heads[place] == unit.queues.len()
    }

    /// Writes whether the unit at a place is offered. The counts stay.
    pub(crate) fn refresh(&mut self, units: &Items<Entry>, place: usize)
        requires board { IsBoardBut (Some place) units.now self.old }
        requires within { place < length units.now }
        ensures board { IsBoardBut None units.now self.new }
        ensures heads { self.new.heads ≡ self.old.heads }
    {
        let ready = self.ready_at(units, place);
        let leaf = self.nodes.len() / 2 + place;
        *self.nodes.at_mut(leaf) = ready;
        settle(&mut self.nodes, leaf, self.height);
    }

    /// The first unit of a queue that is not stopped counts it no more.
    pub(crate) fn lower<L: Ledger>(
        &mut self,
        units: &Items<Entry>,
        lanes: &Items<Lane>,
        queue: usize,
        steps: &mut Steps<L>,
    )
        requires kept { AreKept None units.now lanes.now self.old }
        requires known { queue < length lanes.now }
        ensures kept { AreKept (Some queue) units.now lanes.now self.new }
        ensures cost { steps.new ≤ steps.old + 1 }
    {
        let lane = &lanes[queue];
        if !lane.stopped {
            match lane.line.first(steps) {
                Some(place) => {
                    *self.heads.at_mut(place) -= 1;
                    self.refresh(units, place);
                }
                None => {}
            }
        }
    }

    /// The first unit of a queue that is not stopped counts it again.
    pub(crate) fn raise<L: Ledger>(
        &mut self,
        units: &Items<Entry>,
        lanes: &Items<Lane>,
        queue: usize,
        steps: &mut Steps<L>,
    )
        requires kept { AreKept (Some queue) units.now lanes.now self.old }
        requires known { queue < length lanes.now }
        ensures kept { AreKept None units.now lanes.now self.new }
        ensures cost { steps.new ≤ steps.old + looks queue units.now }
    {
        let lane = &lanes[queue];
        if !lane.stopped {
            match lane.line.first(steps) {
                Some(place) => {
                    *self.heads.at_mut(place) += 1;
                    self.refresh(units, place);
                }
                None => {}
            }
        }
    }

    /// The place of the offered unit that was added first.
    pub(crate) fn next_place(&self, units: &Items<Entry>) -> Option<usize>
        requires board { IsBoardBut None units.now self.now }
        ensures { MatchOption result ((p : ℕ) → is_ready (slice_get units.now p) (slice_get self.now.heads p) ≡ false)
            (λ at. (is_ready (slice_get units.now at) (slice_get self.now.heads at) ≡ true) × ((p : ℕ) → p < at → is_ready (slice_get units.now p) (slice_get self.now.heads p) ≡ false)) }
    {
        match first(&self.nodes, self.height) {
            Some(leaf) => Some(leaf - self.nodes.len() / 2),
            None => None,
        }
    }
}

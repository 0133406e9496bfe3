//! Room for one more unit: a tree that has a leaf for it, its place, and its id in the table.

ghost use Rattle.std.specs.Prelude.{◌≡◌, ◌≤◌, ◌<◌, ◌+◌, ◌*◌, ◌^◌, ℕ, None, Some, false, [], ◌∷◌, ◌++◌, length, IfOk, IfSome, OnOk, OnErr};
ghost use Rattle.std.specs.BTreeMap.{get};
ghost use Rattle.multi_queue.specs.Bits.{bit};
ghost use Rattle.multi_queue.specs.Counted.{IsBoardBut, IsKept, behind, new_entry};
ghost use Rattle.multi_queue.specs.Seen.{numbers_cmp, number_of, IsPlaced, IsNew};

use crate::bits::settle;
use crate::board::Board;
use crate::counting::Counting;
use crate::entry::Entry;
use crate::places::{Number, number_of};
use crate::row::Row;
use ale_base::{Items, OutOfMemory, Tid};
use std::alloc::Global;
use std::collections::BTreeMap;

impl Counting {
    /// The place of a new unit, which is in no queue and not live yet. After an `Err` all units are as before.
    pub(crate) fn make_room(
        &mut self,
        alloc: Global,
        places: &mut BTreeMap<Number, usize>,
        tid: Tid,
    ) -> Result<usize, OutOfMemory>
        requires kept { IsKept None self.old }
        requires placed { IsPlaced self.old.units (get numbers_cmp places.old) }
        requires new { IsNew tid self.old.units }
        ensures kept { IsKept None self.new }
        ensures placed { IsPlaced self.new.units (get numbers_cmp places.new) }
        ensures place { IfOk result (λ place. (place ≡ length self.old.units) × (get numbers_cmp places.new (number_of tid) ≡ Some place)) }
        ensures lanes { self.new.lanes ≡ self.old.lanes }
        ensures behind { OnOk result (self.new.units ≡ self.old.units ++ new_entry tid ∷ []) }
        ensures units { OnErr result (self.new.units ≡ self.old.units) }
    {
        if let Err(short) = self.board.grow(alloc, &self.units) {
            return Err(short);
        }
        let place = self.units.len();
        if let Err(short) = self.push_entry(alloc, tid) {
            return Err(short);
        }
        match places.insert(number_of(tid), place) {
            Ok(_) => Ok(place),
            Err(_) => {
                self.units.truncate(place);
                self.board.heads.truncate(place);
                Err(OutOfMemory)
            }
        }
    }

    /// A unit behind all others, which is in no queue and not live yet. After an `Err` all is as before.
    fn push_entry(&mut self, alloc: Global, tid: Tid) -> Result<(), OutOfMemory>
        ensures ok { OnOk result (self.new ≡ behind tid self.old) }
        ensures err { OnErr result (self.new ≡ self.old) }
    {
        let place = self.units.len();
        let entry = Entry {
            tid,
            queues: Row::new(alloc),
            live: false,
            claim: None,
            mark: None,
        };
        if let Err(short) = self.units.push(entry) {
            return Err(short);
        }
        match self.board.heads.push(0) {
            Ok(()) => Ok(()),
            Err(short) => {
                self.units.truncate(place);
                Err(short)
            }
        }
    }
}

impl Board {
    /// A tree that has a leaf for one unit more. The counts stay. After an `Err` it is as before.
    fn grow(&mut self, alloc: Global, units: &Items<Entry>) -> Result<(), OutOfMemory>
        requires board { 0 < length units.now → IsBoardBut None units.now self.old }
        requires all { length self.old.heads ≡ length units.now }
        ensures room { OnOk result (length units.now < 2 ^ self.new.height) }
        ensures board { OnOk result (IsBoardBut None units.now self.new) }
        ensures heads { self.new.heads ≡ self.old.heads }
        ensures err { OnErr result (self.new ≡ self.old) }
    {
        if !units.is_empty() && units.len() < self.nodes.len() / 2 {
            return Ok(());
        }
        match next_size(units.len(), self.nodes.len(), self.height) {
            Some((size, above)) => match self.tree_of(alloc, units, size, above) {
                Ok(grown) => {
                    self.nodes = grown;
                    self.height = above;
                    Ok(())
                }
                Err(short) => Err(short),
            },
            None => Err(OutOfMemory),
        }
    }

    /// A tree of this height over the units.
    fn tree_of(
        &self,
        alloc: Global,
        units: &Items<Entry>,
        size: usize,
        height: u32,
    ) -> Result<Items<bool>, OutOfMemory>
        requires size { size ≡ 2 * 2 ^ height }
        requires room { length units.now ≤ 2 ^ height }
        requires all { length self.now.heads ≡ length units.now }
        ensures { IfOk result (λ nodes. IsBoardBut None units.now (record { heads = self.now.heads; nodes = nodes; height = height })) }
    {
        let mut nodes = falses(alloc, size)?;
        for place in 0..units.len() {
            let leaf = size / 2 + place;
            let ready = self.ready_at(units, place);
            *nodes.at_mut(leaf) = ready;
            settle(&mut nodes, leaf, height);
        }
        Ok(nodes)
    }
}

/// The size and the height of a tree with twice the leaves, or with one where there is no unit.
fn next_size(units: usize, size: usize, height: u32) -> Option<(usize, u32)>
    requires size { 0 < units → size ≡ 2 * 2 ^ height }
    requires room { 0 < units → units ≤ 2 ^ height }
    ensures size { IfSome result (λ next. next.0 ≡ 2 * 2 ^ next.1) }
    ensures room { IfSome result (λ next. units < 2 ^ next.1) }
{
    if units == 0 {
        return Some((2, 0));
    }
    match (size.checked_mul(2), height.checked_add(1)) {
        (Some(size), Some(above)) => Some((size, above)),
        _ => None,
    }
}

/// So many bits, none of which is true.
fn falses(alloc: Global, size: usize) -> Result<Items<bool>, OutOfMemory>
    ensures { IfOk result (λ nodes. (length nodes ≡ size) × ((i : ℕ) → bit nodes i ≡ false)) }
{
    let mut nodes = Items::new(alloc);
    for number in 0..size {
        let _ = number;
        nodes.push(false)?;
    }
    Ok(nodes)
}

//! The entries of a queue. Its one reading call counts a look.

ghost use Rattle.std.specs.Prelude.{◌≡◌, ◌<◌, slice_get};

use ale_base::OutOfMemory;
use plain_queues::Steps;
use std::alloc::Global;
use std::collections::VecDeque;
use std::marker::{Brand, Model};
use std::sync::ledger::{Blank, Ledger};

/// The places of the units in a queue, in order. Contracts see the list.
#[derive(Drop)]
pub(crate) struct Line {
    places: VecDeque<usize>,
}

impl Model for Line {
    ghost use Rattle.std.specs.Prelude.{ℕ, List};

    ghost Value = { List ℕ };

    ghost view = { λ line. line.places.items };
}

impl Line {
    ghost use Rattle.std.specs.Prelude.{◌≡◌, ◌+◌, ◌-◌, [], ◌∷◌, ◌++◌, length, take, drop, slice_get, OnOk, OnErr, is_some, cond};

    /// An empty queue. It takes no memory.
    pub(crate) fn new(alloc: Global) -> Line
        ensures { result ≡ [] }
    {
        Line {
            places: VecDeque::new(alloc),
        }
    }

    /// How many places there are.
    pub(crate) fn len(&self) -> usize
        ensures { result ≡ length self.now }
    {
        self.places.len()
    }

    /// The first place. A look at an entry is a step.
    pub(crate) fn first<L: Ledger>(&self, steps: &mut Steps<L>) -> Option<usize>
        ensures first { result ≡ slice_get self.now 0 }
        ensures cost { steps.new ≡ steps.old + cond (is_some result) 1 0 }
    {
        match self.places.front() {
            Some(place) => {
                steps.tick();
                Some(*place)
            }
            None => None,
        }
    }

    /// The first place, where nobody counts looks.
    pub(crate) fn head(&self) -> Option<usize>
        ensures { result ≡ slice_get self.now 0 }
    {
        head_from::<Brand>(self, Blank::new(1))
    }

    /// A place joins at the end.
    pub(crate) fn push(&mut self, place: usize) -> Result<(), OutOfMemory>
        ensures ok { OnOk result (self.new ≡ self.old ++ place ∷ []) }
        ensures err { OnErr result (self.new ≡ self.old) }
    {
        self.places.push_back(place)?;
        Ok(())
    }

    /// The first place goes.
    pub(crate) fn leave_first(&mut self)
        ensures { self.new ≡ drop 1 self.old }
    {
        let _gone = self.places.pop_front();
    }

    /// The last place goes.
    pub(crate) fn leave_last(&mut self)
        ensures { self.new ≡ take (length self.old - 1) self.old }
    {
        let _gone = self.places.pop_back();
    }
}

/// The first place of a line, by a look that a ledger of its own counts.
fn head_from<L: Ledger>(line: &Line, blank: Blank) -> Option<usize>
    requires name { blank.name ≡ L.name }
    requires parts { blank.parts ≡ L.parts }
    requires some { 0 < blank.parts }
    ensures { result ≡ slice_get line.now 0 }
{
    let mut steps: Steps<L> = Steps::new(blank);
    line.first(&mut steps)
}

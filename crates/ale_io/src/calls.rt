//! The calls of an implementation in memory, some of which are chosen to fail.

ghost use Rattle.std.specs.Prelude.{◌≡◌, ◌+◌, ◌-◌, ◌^◌, ◌↔◌, [], min, Contains, IsTrue, false, ◌≤◌};
ghost use Rattle.ale_base.specs.Faults.{Rose};
ghost use Rattle.ale_io.specs.FaultCount.{IsCounted, CountsOne};

use ale_base::Items;
use std::alloc::Global;

/// The calls of something in memory that stands for the outside: how many were made, and which of them are to fail,
/// counted from 1.
#[derive(Drop)]
pub struct Calls {
    /// The numbers of the calls that are to fail.
    pub failing: Items<u64>,
    /// How many calls were made.
    pub made: u64,
    /// How many faults there were.
    pub faults: u64,
}

impl Calls {
    /// No call was made, and those of these numbers will fail.
    pub fn with_failures(failing: Items<u64>) -> Calls
        ensures { result ≡ record { failing = failing; made = 0; faults = 0 } }
    {
        Calls {
            failing,
            made: 0,
            faults: 0,
        }
    }

    /// No call was made, and none is chosen to fail. It takes no memory.
    pub fn without_failures(alloc: Global) -> Calls
        ensures { result ≡ record { failing = []; made = 0; faults = 0 } }
    {
        Calls::with_failures(Items::new(alloc))
    }

    /// Counts a call. True exactly where it is to fail, and then it is a fault.
    pub fn next_fails(&mut self) -> bool
        ensures made { self.new.made ≡ min (self.old.made + 1) (2 ^ 64 - 1) }
        ensures chosen { IsTrue result ↔ Contains self.old.failing self.new.made }
        ensures failing { self.new.failing ≡ self.old.failing }
        ensures one_fault { CountsOne (IsTrue result) self.old.faults self.new.faults }
        ensures faults { IsCounted (IsTrue result) (result ≡ false) self.old.faults self.new.faults }
    {
        self.made = self.made.saturating_add(1);
        let fails = self.failing.as_slice().contains(&self.made);
        if fails {
            self.fault();
        }
        fails
    }

    /// Counts a fault.
    pub fn fault(&mut self)
        ensures faults { self.new ≡ record self.old { faults = min (self.old.faults + 1) (2 ^ 64 - 1) } }
        ensures counted { self.old.faults ≤ self.new.faults }
        ensures rose { Rose self.old.faults self.new.faults }
    {
        self.faults = self.faults.saturating_add(1);
    }
}

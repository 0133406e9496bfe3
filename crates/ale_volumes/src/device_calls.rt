//! The calls on volumes in memory, and which of them fail.

ghost use Rattle.std.specs.Prelude.{◌≡◌, ◌+◌, ◌-◌, ◌^◌, ◌<◌, ◌↔◌, min, IsTrue, IsFalse, replicate, slice_index, slice_set};
ghost use Rattle.ale_volumes.specs.Faults.{CountsFault};
ghost use Rattle.ale_volumes.specs.Calls.{NextFails};

use ale_base::Items;

/// The calls on volumes in memory: how many were made over all volumes, which of them are to fail, and the faults.
#[derive(Drop)]
pub struct DeviceCalls {
    /// The numbers of the calls that are to fail, counted from 1.
    pub failing: Items<u64>,
    /// How many calls were made.
    pub made: u64,
    /// How many calls have failed, by volume.
    pub faults: [u64; 16],
}

impl DeviceCalls {
    /// No call was made, and those of these numbers will fail.
    pub fn with_failures(failing: Items<u64>) -> DeviceCalls
        ensures { result ≡ record { failing = failing; made = 0; faults = replicate 16 0 } }
    {
        DeviceCalls {
            failing,
            made: 0,
            faults: [0; 16],
        }
    }

    /// Counts a call. True exactly where it is to fail: it was chosen, or there is no number left for it.
    pub fn next_fails(&mut self) -> bool
        ensures made { self.new ≡ record self.old { made = min (self.old.made + 1) (2 ^ 64 - 1) } }
        ensures chosen { IsTrue result ↔ NextFails self.old.failing self.old.made }
    {
        let last = self.made == u64::MAX;
        self.made = self.made.saturating_add(1);
        last || self.failing.as_slice().contains(&self.made)
    }

    /// Counts a fault of a volume.
    pub fn fault(&mut self, n: u8)
        requires { n < 16 }
        ensures faults { self.new ≡ record self.old {
          faults = slice_set self.old.faults n (min (slice_index self.old.faults n + 1) (2 ^ 64 - 1));
        } }
        ensures counted { CountsFault (Unit {0}) (slice_index self.old.faults) (slice_index self.new.faults) n }
    {
        let count = &mut self.faults[usize::from(n)];
        *count = count.saturating_add(1);
    }
}

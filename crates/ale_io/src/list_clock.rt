//! A clock in memory.

ghost use Rattle.std.specs.Prelude.{◌≡◌};
ghost use Rattle.ale_io.specs.Moments.{last_moment};

use crate::Clock;
use ale_base::Items;

/// A clock in memory. It gives the moments of a list, and then the last of them again and again; 0 where the list is
/// empty. Once its calls have no number of 64 bits left it tells nothing.
#[derive(Drop)]
pub struct ListClock {
    /// The moments that it gives, the first one first.
    pub moments: Items<u64>,
    /// How many calls were made.
    pub calls: u64,
}

impl ListClock {
    ghost use Rattle.std.specs.Prelude.{◌≡◌};
    ghost use Rattle.ale_io.specs.Moments.{moment_at};

    /// A clock that gives these moments, of which no call was made. It takes no memory.
    pub fn with_moments(moments: Items<u64>) -> ListClock
        ensures { result ≡ record { moments = moments; calls = 0 } }
    {
        ListClock { moments, calls: 0 }
    }

    /// What the next call gives.
    fn next_moment(&self) -> u64
        ensures { result ≡ moment_at self.now.moments self.now.calls }
    {
        match self.moments.get(self.calls as usize) {
            Some(moment) => *moment,
            None => last_of(self.moments.as_slice()),
        }
    }
}

impl Clock for ListClock {
    ghost use Rattle.std.specs.Prelude.{◌≡◌, [], ◌∷◌, ◌++◌, ◌+◌, ◌-◌, ◌^◌, ◌<◌, min};
    ghost use Rattle.ale_io.specs.Moments.{moment_at, given_by};

    ghost told = { λ clock. clock.calls < 2 ^ 64 - 1 };

    ghost given = { λ clock. given_by clock.moments clock.calls };

    fn now(&mut self) -> u64
        ensures told { self.new.calls < 2 ^ 64 - 1 → self.old.calls < 2 ^ 64 - 1 }
        ensures given { self.new.calls < 2 ^ 64 - 1 →
            given_by self.new.moments self.new.calls ≡ given_by self.old.moments self.old.calls ++ result ∷ [] }

        // It gives the next of its moments, and counts the call.
        ensures moment { result ≡ moment_at self.old.moments self.old.calls }
        ensures counted { self.new ≡ record self.old { calls = min (self.old.calls + 1) (2 ^ 64 - 1) } }
    {
        let moment = self.next_moment();
        self.calls = self.calls.saturating_add(1);
        moment
    }
}

/// The last of some moments; 0 where there is none.
fn last_of(moments: &[u64]) -> u64
    ensures { result ≡ last_moment moments.now }
{
    match moments.last() {
        Some(moment) => *moment,
        None => 0,
    }
}

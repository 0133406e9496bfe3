//! The clock of the system. It tells nothing of what it gave.

ghost use Rattle.std.specs.Prelude.{◌≡◌, ◌/◌};
ghost use Rattle.std.specs.Time.{system_time_nanos};

use ale_io::Clock;
use std::rt;
use std::time::{SystemTime, UNIX_EPOCH};

/// The clock of the system. It gives seconds since the beginning of 1970 (UTC), and tells nothing of what it gave.
#[derive(Drop)]
pub struct WallClock<'a, R: rt::Clock> {
    rt: &'a R,
}

impl<'a, R: rt::Clock> WallClock<'a, R> {
    /// The clock of this system. It tells nothing.
    pub fn new(rt: &'a R) -> WallClock<'a, R>
        ensures { ¬ ⟦<WallClock<'a, R> as Clock>⟧.told result }
    {
        WallClock { rt }
    }
}

impl<R: rt::Clock> Clock for WallClock<'_, R> {
    ghost use Rattle.std.specs.Prelude.{[]};

    ghost told = { λ _. ⊥ };

    ghost given = { λ _. [] };

    /// Gives the seconds since 1970: 0 where the system's clock fails, or is before 1970.
    fn now(&mut self) -> u64 {
        match SystemTime::now(self.rt) {
            Ok(time) => seconds(time),
            Err(_) => 0,
        }
    }
}

/// The whole seconds from 1970 to a time.
fn seconds(time: SystemTime) -> u64
    ensures { result ≡ system_time_nanos time / 1000000000 }
{
    match time.duration_since(UNIX_EPOCH) {
        Ok(since) => since.as_secs(),
        Err(_) => 0,
    }
}

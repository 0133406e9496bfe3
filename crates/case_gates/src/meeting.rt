//! Where works wait for each other.

use std::sync::atomic::{AtomicU64, Ordering};
use std::thread;

/// Where each work waits until so many have come as are expected. Once they have, all later ones go on at once.
#[derive(Drop)]
pub struct Meeting {
    expected: u64,
    /// How many have come.
    begun: AtomicU64,
    /// How many used up their turns.
    missed: AtomicU64,
}

/// How many turns a work waits at most.
const TURNS: u64 = 1_000_000_000;

impl Meeting {
    /// A meeting at which so many are expected, and to which none has come.
    pub fn of(expected: u64) -> Meeting {
        Meeting {
            expected,
            begun: AtomicU64::new(0),
            missed: AtomicU64::new(0),
        }
    }

    /// Comes, and waits until all that are expected have come, for at most 1,000,000,000 turns.
    pub fn attend(&self) {
        self.begun.fetch_add(1, Ordering::SeqCst);
        for _ in 0..TURNS {
            if self.begun.load(Ordering::SeqCst) >= self.expected {
                return;
            }
            thread::yield_now();
        }
        self.missed.fetch_add(1, Ordering::SeqCst);
    }

    /// How it came out, once nobody waits any more: `all met` where all that are expected have come and none used up its
    /// turns.
    pub fn told(&self) -> &'static str {
        if self.missed.load(Ordering::SeqCst) > 0 {
            "a turn limit was met"
        } else if self.begun.load(Ordering::SeqCst) < self.expected {
            "too few came"
        } else {
            "all met"
        }
    }
}

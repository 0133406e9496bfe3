//! A gate that counts.

use ale_base::{SystemNo, Tid};
use ale_io::Gate;
use std::sync::atomic::{AtomicU64, Ordering};

/// A gate that lets every work through at once, and counts them.
#[derive(Drop)]
pub struct CountingGate {
    passed: AtomicU64,
}

impl CountingGate {
    /// A gate that no work has passed.
    pub fn new() -> CountingGate {
        CountingGate {
            passed: AtomicU64::new(0),
        }
    }

    /// How many works have passed.
    pub fn passed(&self) -> u64 {
        self.passed.load(Ordering::SeqCst)
    }
}

impl Gate for CountingGate {
    fn pass(&self, _system: SystemNo, _tid: Tid) {
        self.passed.fetch_add(1, Ordering::SeqCst);
    }
}

//! The trait of what workers pass before each work, and a gate that is open.

use ale_base::{SystemNo, Tid};

/// What a worker passes before each work, while it holds no lock. It may wait there; what contracts see is as before.
pub trait Gate {
    /// Passes with a work on the unit of this TID at this system.
    fn pass(&self, system: SystemNo, tid: Tid);
}

/// A gate that lets every work through at once.
#[derive(Clone, Copy, PartialEq, Eq)]
pub struct OpenGate;

impl Gate for OpenGate {
    fn pass(&self, _system: SystemNo, _tid: Tid) {}
}

//! Claims.

use ale_base::{SystemNo, Tid};

/// What a claim is for.
#[derive(Clone, Copy, PartialEq, Eq)]
pub enum HeldKind {
    /// To ship a unit to its receiver.
    Out,
    /// To execute a unit that was taken in.
    In,
    /// To execute a unit with no inbound queue as it arrives.
    Direct,
}

/// A claim: as long as there is one, nobody else works on the unit in this way.
#[derive(Clone, Copy, PartialEq, Eq)]
pub struct Held {
    /// Its number. No two claims have one number.
    pub number: u64,
    /// The unit.
    pub tid: Tid,
    /// The system that works on it.
    pub system: SystemNo,
    /// What it is for.
    pub kind: HeldKind,
}

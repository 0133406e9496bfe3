//! Claims on units.

use ale_base::Tid;

/// The right to work on a unit, until it is released, marked or finished.
#[derive(Clone, Copy, PartialEq, Eq)]
pub struct Claim {
    /// The number of the claim, which its maker chose.
    pub number: u64,
    /// The id of the unit.
    pub tid: Tid,
}

//! The two directions of a system.

/// A direction, seen from a system.
#[derive(Clone, Copy, PartialEq, Eq)]
pub enum Way {
    /// To another system.
    Outgoing,
    /// From another system.
    Incoming,
}

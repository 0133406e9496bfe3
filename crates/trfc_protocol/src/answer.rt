//! The answers of a receiver.

/// How a receiver answers the arrival of a unit.
#[derive(Clone, Copy, PartialEq, Eq)]
pub enum Answer {
    /// The receiver is down.
    Down,
    /// The unit was received.
    Known,
    /// A direct run of the unit is under way.
    Busy,
    /// The unit has no inbound queue, and the receiver does not offer its function.
    SysFail,
    /// The unit has no inbound queue: a direct run begins.
    Run,
    /// The unit is taken in.
    New,
}

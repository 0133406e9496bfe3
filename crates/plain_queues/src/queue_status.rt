//! Statuses of queues.

/// The status of a queue that is not empty, by the unit that heads it: the first of these that applies, in this order.
#[derive(Clone, Copy, PartialEq, Eq)]
pub enum QueueStatus {
    /// The queue is stopped.
    Stop,
    /// Its head is claimed.
    Running,
    /// Its head is marked so.
    Sysfail,
    /// Its head is marked so.
    Cpicerr,
    /// Its head is in another queue that is stopped.
    Waitstop,
    /// Its head is in another queue that another unit heads.
    Waiting,
    /// Its head is offered.
    Ready,
}

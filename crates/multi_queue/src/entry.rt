//! Units and queues as the counting body keeps them.

use crate::line::Line;
use crate::row::Row;
use ale_base::{Mark, Tid};
use plain_queues::QueueKey;

/// A unit. It stays at its place when it is finished, and then it is in no queue.
#[derive(Drop)]
pub(crate) struct Entry {
    pub(crate) tid: Tid,
    /// The numbers of the queues that it is in.
    pub(crate) queues: Row,
    /// Whether it is not finished.
    pub(crate) live: bool,
    pub(crate) claim: Option<u64>,
    pub(crate) mark: Option<Mark>,
}

/// A queue. Its number is its place among all, in the order of first use.
#[derive(Drop)]
pub(crate) struct Lane {
    pub(crate) key: QueueKey,
    pub(crate) stopped: bool,
    pub(crate) line: Line,
}

//! Queues as an operator lists them.

use crate::{QueueKey, QueueStatus};

/// How many units a queue holds, and its status.
#[derive(Clone, Copy, PartialEq, Eq)]
pub struct QueueCount {
    /// Which queue it is.
    pub key: QueueKey,
    /// How many units it holds.
    pub count: u64,
    /// Its status.
    pub status: QueueStatus,
}

//! Units as queues hold them.

use crate::QueueKey;
use ale_base::{Items, Mark, Tid};

/// A unit that was added and is not finished.
#[derive(Drop)]
pub(crate) struct QueuedUnit {
    /// Its id.
    pub(crate) tid: Tid,
    /// The keys of its queues, which differ.
    pub(crate) keys: Items<QueueKey>,
    /// The number of the claim on it.
    pub(crate) claim: Option<u64>,
    /// Its mark, until it is retried.
    pub(crate) mark: Option<Mark>,
}

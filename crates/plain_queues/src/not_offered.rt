//! Why a unit may not be claimed.

use crate::QueueKey;
use ale_base::{Mark, Tid};
use thiserror::Error;

/// Why a unit is not offered: the first of these that applies, in this order.
#[derive(Clone, Copy, Debug, PartialEq, Eq, Error)]
pub enum NotOffered {
    /// No unit of this id is here.
    #[error("there is no such unit")]
    Unknown,
    /// It is claimed, under this number.
    #[error("the unit is claimed")]
    Running(u64),
    /// It is marked, and waits until it is retried.
    #[error("the unit is marked")]
    Failed(Mark),
    /// This queue of it is stopped, its first one that is.
    #[error("a queue of the unit is stopped")]
    Stopped(QueueKey),
    /// Another unit heads this queue of it, its first one that another heads: the unit of this id.
    #[error("another unit heads a queue of the unit")]
    Behind(QueueKey, Tid),
}

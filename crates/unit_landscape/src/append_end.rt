//! How an append ends that is not done.

use thiserror::Error;

/// Why a record was not appended, or its system is down although it was.
#[derive(Clone, Copy, Debug, PartialEq, Eq, Error)]
pub enum AppendEnd {
    /// A call on the volume failed. The system is down; at its opening the record may be found.
    #[error("volume fault")]
    Volume,
    /// The volume is full: with the record it would be this long, in bytes, over 67,108,864. Nothing has changed.
    #[error("volume full at {0}")]
    Full(u64),
    /// A request for memory was refused before the record was written. Nothing has changed, but perhaps what lies behind the log on
    /// the volume.
    #[error("out of memory")]
    Before,
    /// A request for memory was refused after the record was written. The record stands in the log, and the system is down.
    #[error("out of memory after the record was written")]
    After,
}

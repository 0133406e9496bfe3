//! Why a file was not read.

use thiserror::Error;

/// Why a file was not read. What was to be filled is as it was before.
#[derive(Clone, Copy, Debug, PartialEq, Eq, Error)]
pub enum FileEnd {
    /// No file has the name.
    #[error("missing")]
    Missing,
    /// The file has more bytes than the limit.
    #[error("too long")]
    TooLong,
    /// The read failed.
    #[error("fault")]
    Failed,
    /// A request for memory was refused.
    #[error("out of memory")]
    OutOfMemory,
}

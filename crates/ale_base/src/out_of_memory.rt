//! The one error of a refused request for memory.

use std::alloc::{AllocError, AllocFailed};
use thiserror::Error;

/// A request for memory was refused. The call that answers it has changed nothing, unless it says otherwise.
#[derive(Clone, Copy, Debug, PartialEq, Eq, Error)]
#[error("out of memory")]
pub struct OutOfMemory;

impl From<AllocError> for OutOfMemory {
    fn from(_refused: AllocError) -> OutOfMemory {
        OutOfMemory
    }
}

impl<T: Drop> From<AllocFailed<T>> for OutOfMemory {
    fn from(_refused: AllocFailed<T>) -> OutOfMemory {
        OutOfMemory
    }
}

//! What is wrong with a document file.

use ale_base::OutOfMemory;
use idoc_record::RecordFault;
use thiserror::Error;

/// What a document file may have too many of.
#[derive(Clone, Copy, Debug, PartialEq, Eq)]
pub enum Quantity {
    /// Documents: 4,096 at most.
    Documents,
    /// Data records of all its documents: 1,000,000 at most.
    Records,
    /// Data records of one document: 10,000 at most.
    Segments,
}

/// What is wrong with a document file: the fault of its first bad line, by the number of the line, counted from 1. Of
/// several faults of a line the first in this order counts.
#[derive(Clone, Copy, Debug, PartialEq, Eq, Error)]
pub enum FileFault {
    /// The line is over 4,096 bytes, its end not counted.
    #[error("line {0}: too long")]
    LineTooLong(u32),
    /// It is a data line, and no control line stands before it.
    #[error("line {0}: no control line before it")]
    NoControl(u32),
    /// It is no record, for this reason.
    #[error("line {0}: {1}")]
    Record(u32, RecordFault),
    /// It passes a limit of the file or of its document. Where it passes two, that of its document counts.
    #[error("line {0}: over the limit of {1:?}")]
    TooMany(u32, Quantity),
    /// A request for memory was refused.
    #[error("out of memory")]
    OutOfMemory,
}

impl From<OutOfMemory> for FileFault {
    ghost use Rattle.std.specs.Prelude.{◌≡◌};
    ghost use Rattle.idoc_file.specs.declared.file_fault.FileFault.TheVariants.{OutOfMemory};

    ghost from_gives = { λ _ fault. fault ≡ OutOfMemory };

    fn from(_: OutOfMemory) -> FileFault {
        FileFault::OutOfMemory
    }
}

//! Why data records are no document of an IDoc type.

use ale_base::{Items, OutOfMemory};
use thiserror::Error;

/// Why data records are no document of an IDoc type. A record is told by its number, from 1. The greatest number of 32
/// bits stands for any larger one.
#[derive(Debug, Drop, Error)]
pub enum SyntaxFault {
    /// The name of this record is neither that of a segment type nor that of a definition.
    #[error("record {0} names no segment type")]
    UnknownSegment(u32),
    /// The segment type of this record is not in the IDoc type, or no segment of the type above it is open, or a sibling
    /// of a later type stands before it. Open are the last root, the last segment below it, and so on.
    #[error("record {0} stands where its segment type may not")]
    Misplaced(u32),
    /// This record is one more of its segment type below the same segment, or at the root level, than may be.
    #[error("record {0} is one too many of its segment type")]
    TooMany(u32),
    /// The segment of this record, or the document for 0, has too few segments of a mandatory type below it. The name is
    /// that of the type.
    #[error("record {1}, or the document at 0, has too few segments of a mandatory type below it")]
    Missing(Items<u8>, u32),
    /// A request for memory was refused.
    #[error("out of memory")]
    OutOfMemory,
}

impl From<OutOfMemory> for SyntaxFault {
    ghost use Rattle.std.specs.Prelude.{◌≡◌};
    ghost use Rattle.idoc_tree.specs.declared.fault.SyntaxFault.TheVariants.{OutOfMemory};

    ghost from_gives = { λ _ fault. fault ≡ OutOfMemory };

    fn from(_: OutOfMemory) -> SyntaxFault {
        SyntaxFault::OutOfMemory
    }
}

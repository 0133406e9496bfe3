//! Why a line is no record.

use crate::ControlField;
use ale_base::OutOfMemory;
use thiserror::Error;

/// Why a line is no record.
#[derive(Clone, Copy, Debug, PartialEq, Eq, Error)]
pub enum RecordFault {
    /// The line without the blanks at its end has this many bytes, more than the record. The greatest number of 32
    /// bits stands for any larger one.
    #[error("too long: {0} bytes")]
    TooLong(u32),
    /// TABNAM is not `EDI_DC40`, or SEGNAM is blank or begins with `EDI_`.
    #[error("of another table")]
    WrongTable,
    /// DOCNUM has a byte that is no digit, or DIRECT is not `1`, `2` or blank.
    #[error("no such number: {0:?}")]
    BadNumber(ControlField),
    /// A request for memory was refused.
    #[error("out of memory")]
    OutOfMemory,
}

impl From<OutOfMemory> for RecordFault {
    ghost use Rattle.std.specs.Prelude.{◌≡◌};
    ghost use Rattle.idoc_record.specs.declared.fault.RecordFault.TheVariants.{OutOfMemory};

    ghost from_gives = { λ _ fault. fault ≡ OutOfMemory };

    fn from(_: OutOfMemory) -> RecordFault {
        RecordFault::OutOfMemory
    }
}

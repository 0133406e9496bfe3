//! Why a run ends.

use ale_base::SystemNo;

/// Why a run ends.
#[derive(Clone, Copy, PartialEq, Eq)]
pub enum RunEnd {
    /// Each command was done, and no system is down but by a crash.
    Whole,
    /// Each command was done, and this system is down by a fault of its volume. It is the first one that is.
    DownByFault(SystemNo),
    /// Each command was done, and this system is down because a record did not fit on its volume, which would have been this long. It is the
    /// first one that is, and none is by a fault.
    DownFull(SystemNo, u64),
    /// A system was to be opened, and its volume holds another log than was kept: the number of the record, or 0 where it is damaged.
    Changed(SystemNo, u64),
    /// The sink did not take the text of a command.
    WriteFailed,
    /// Memory ran out.
    OutOfMemory,
}

//! Why a log was not opened, or was not found.

ghost use Rattle.std.specs.Prelude.{◌≡◌};
ghost use Rattle.unit_journal.specs.declared.fault.LogFault.TheVariants.{OutOfMemory as NoMemory};
ghost use Rattle.unit_journal.specs.declared.fault.LookFault.TheVariants.{OutOfMemory as NoMemoryToLook};
ghost use Rattle.unit_journal.specs.Fault.{log_fault_of, look_fault_of};

use ale_base::OutOfMemory;
use byte_journal::OpenFault;
use thiserror::Error;

/// Why the log of a volume was not opened.
#[derive(Clone, Copy, Debug, PartialEq, Eq, Error)]
pub enum LogFault {
    /// A call on the volume failed.
    #[error("volume fault")]
    Volume,
    /// The volume holds no log: the open gate at this place, counted from 0, begins no record.
    #[error("damaged at {0}")]
    Damaged(u64),
    /// The volume holds a log, and this record of it, counted from 1, is the first that is no entry.
    #[error("unread at {0}")]
    Unread(u64),
    /// A request for memory was refused.
    #[error("out of memory")]
    OutOfMemory,
}

impl From<OpenFault> for LogFault {
    ghost from_gives = { λ fault result. result ≡ log_fault_of fault };

    fn from(fault: OpenFault) -> LogFault {
        match fault {
            OpenFault::Volume => LogFault::Volume,
            OpenFault::Damaged(place) => LogFault::Damaged(place),
            OpenFault::OutOfMemory => LogFault::OutOfMemory,
        }
    }
}

impl From<OutOfMemory> for LogFault {
    ghost from_gives = { λ _ fault. fault ≡ NoMemory };

    fn from(_: OutOfMemory) -> LogFault {
        LogFault::OutOfMemory
    }
}

/// Why the log of a system that is down was not found on its volume.
#[derive(Clone, Copy, Debug, PartialEq, Eq, Error)]
pub enum LookFault {
    /// A call on the volume failed.
    #[error("volume fault")]
    Volume,
    /// The volume holds another log. The number is 0 where it is damaged, else that of the first record that is no entry,
    /// else that of the first that differs, is missing, or is one too many, counted from 1.
    #[error("changed at {0}")]
    Changed(u64),
    /// A request for memory was refused.
    #[error("out of memory")]
    OutOfMemory,
}

impl From<LogFault> for LookFault {
    ghost from_gives = { λ fault result. result ≡ look_fault_of fault };

    fn from(fault: LogFault) -> LookFault {
        match fault {
            LogFault::Volume => LookFault::Volume,
            LogFault::Damaged(_) => LookFault::Changed(0),
            LogFault::Unread(number) => LookFault::Changed(number),
            LogFault::OutOfMemory => LookFault::OutOfMemory,
        }
    }
}

impl From<OutOfMemory> for LookFault {
    ghost from_gives = { λ _ fault. fault ≡ NoMemoryToLook };

    fn from(_: OutOfMemory) -> LookFault {
        LookFault::OutOfMemory
    }
}

//! Why a volume is not opened for a landscape.

ghost use Rattle.std.specs.Prelude.{◌≡◌};
ghost use Rattle.unit_landscape.specs.declared.opening.fault.OpenFault.TheVariants.{OutOfMemory as NoMemory};
ghost use Rattle.unit_landscape.specs.Opening.{open_fault_of};

use ale_base::OutOfMemory;
use thiserror::Error;
use unit_journal::LogFault;

/// Why the volume of a system is not opened.
#[derive(Clone, Copy, Debug, PartialEq, Eq, Error)]
pub enum OpenFault {
    /// A call on the volume failed.
    #[error("volume fault")]
    Volume,
    /// The volume holds no log: the open gate at this place, counted from 0, begins no record.
    #[error("damaged at {0}")]
    Damaged(u64),
    /// The volume holds a log, and this record of it, counted from 1, is the first that is no entry.
    #[error("unread at {0}")]
    Unread(u64),
    /// A request for memory was refused.
    #[error("out of memory")]
    OutOfMemory,
}

impl From<LogFault> for OpenFault {
    ghost from_gives = { λ fault result. result ≡ open_fault_of fault };

    fn from(fault: LogFault) -> OpenFault {
        match fault {
            LogFault::Volume => OpenFault::Volume,
            LogFault::Damaged(place) => OpenFault::Damaged(place),
            LogFault::Unread(number) => OpenFault::Unread(number),
            LogFault::OutOfMemory => OpenFault::OutOfMemory,
        }
    }
}

impl From<OutOfMemory> for OpenFault {
    ghost from_gives = { λ _ fault. fault ≡ NoMemory };

    fn from(_: OutOfMemory) -> OpenFault {
        OpenFault::OutOfMemory
    }
}

/// A volume that was not opened: why, and the volumes.
#[derive(Drop)]
pub struct NotOpened<V> {
    /// Why.
    pub why: OpenFault,
    /// The volumes.
    pub vols: V,
}

//! Why a journal was not opened, and why a body was not appended.

ghost use Rattle.std.specs.Prelude.{◌≡◌};
ghost use Rattle.byte_journal.specs.declared.fault.OpenFault.TheVariants.{Volume as OpenVolume, OutOfMemory as OpenMemory};
ghost use Rattle.byte_journal.specs.declared.fault.AppendFault.TheVariants.{OutOfMemory as AppendMemory};
ghost use Rattle.byte_journal.specs.Fault.{open_fault_of, append_fault_of};

use ale_base::OutOfMemory;
use ale_volumes::{VolumeEnd, VolumeFailed};
use std::alloc::AllocError;
use thiserror::Error;

/// Why a journal was not opened.
#[derive(Clone, Copy, Debug, PartialEq, Eq, Error)]
pub enum OpenFault {
    /// A call on the volume failed.
    #[error("volume fault")]
    Volume,
    /// The volume holds no log: the open gate at this place, counted from 0, begins no record.
    #[error("damaged at {0}")]
    Damaged(u64),
    /// A request for memory was refused.
    #[error("out of memory")]
    OutOfMemory,
}

/// Why a body was not appended.
#[derive(Clone, Copy, Debug, PartialEq, Eq, Error)]
pub enum AppendFault {
    /// A call on the volume failed. The journal is to be opened again before further use.
    #[error("volume fault")]
    Volume,
    /// The journal would have this length in bytes, which is over the most that it may have.
    #[error("journal full at {0}")]
    Full(u64),
    /// A request for memory was refused.
    #[error("out of memory")]
    OutOfMemory,
}

impl From<VolumeFailed> for OpenFault {
    ghost from_gives = { λ _ fault. fault ≡ OpenVolume };

    fn from(_: VolumeFailed) -> OpenFault {
        OpenFault::Volume
    }
}

impl From<VolumeEnd> for OpenFault {
    ghost from_gives = { λ end fault. fault ≡ open_fault_of end };

    fn from(end: VolumeEnd) -> OpenFault {
        match end {
            VolumeEnd::Failed => OpenFault::Volume,
            VolumeEnd::OutOfMemory => OpenFault::OutOfMemory,
        }
    }
}

impl From<OutOfMemory> for OpenFault {
    ghost from_gives = { λ _ fault. fault ≡ OpenMemory };

    fn from(_: OutOfMemory) -> OpenFault {
        OpenFault::OutOfMemory
    }
}

impl From<AllocError> for OpenFault {
    ghost from_gives = { λ _ fault. fault ≡ OpenMemory };

    fn from(_: AllocError) -> OpenFault {
        OpenFault::OutOfMemory
    }
}

impl From<VolumeEnd> for AppendFault {
    ghost from_gives = { λ end fault. fault ≡ append_fault_of end };

    fn from(end: VolumeEnd) -> AppendFault {
        match end {
            VolumeEnd::Failed => AppendFault::Volume,
            VolumeEnd::OutOfMemory => AppendFault::OutOfMemory,
        }
    }
}

impl From<OutOfMemory> for AppendFault {
    ghost from_gives = { λ _ fault. fault ≡ AppendMemory };

    fn from(_: OutOfMemory) -> AppendFault {
        AppendFault::OutOfMemory
    }
}

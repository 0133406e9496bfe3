//! Why bytes are no spelling.

ghost use Rattle.std.specs.Prelude.{◌≡◌};
ghost use Rattle.unit_codec.specs.declared.fault.FieldFault.TheVariants.{OutOfMemory as NoMemory};

use ale_base::OutOfMemory;
use std::alloc::AllocError;
use thiserror::Error;

/// Why bytes are not read as a record or an entry.
#[derive(Clone, Copy, Debug, PartialEq, Eq, Error)]
pub enum CodecFault {
    /// The field that begins at this place, counted from 0, does not follow its rule; or the fields end there, and bytes
    /// follow them.
    #[error("bad at {0}")]
    Bad(u64),
    /// A request for memory was refused.
    #[error("out of memory")]
    OutOfMemory,
}

/// Why a field is not read.
#[derive(Clone, Copy, PartialEq, Eq)]
pub(crate) enum FieldFault {
    /// A field that begins where so many bytes are left does not follow its rule.
    Bad(usize),
    /// A request for memory was refused.
    OutOfMemory,
}

impl From<OutOfMemory> for FieldFault {
    ghost from_gives = { λ _ fault. fault ≡ NoMemory };

    fn from(_: OutOfMemory) -> FieldFault {
        FieldFault::OutOfMemory
    }
}

impl From<AllocError> for FieldFault {
    ghost from_gives = { λ _ fault. fault ≡ NoMemory };

    fn from(_: AllocError) -> FieldFault {
        FieldFault::OutOfMemory
    }
}

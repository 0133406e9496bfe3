//! Why no queues are named, and why no record is added.

use ale_base::{NameFault, OutOfMemory};
use thiserror::Error;

/// Why the rules of a profile name no queues of a document.
#[derive(Clone, Copy, Debug, PartialEq, Eq, Error)]
pub enum BuildFault {
    /// What a rule makes is not the name of a queue.
    #[error("a rule makes no name of a queue: {0}")]
    Name(NameFault),
    /// A request for memory was refused.
    #[error("out of memory")]
    OutOfMemory,
}

impl From<OutOfMemory> for BuildFault {
    ghost use Rattle.std.specs.Prelude.{◌≡◌};
    ghost use Rattle.outbound_build.specs.declared.fault.BuildFault.TheVariants.{OutOfMemory};

    ghost from_gives = { λ _ fault. fault ≡ OutOfMemory };

    fn from(_: OutOfMemory) -> BuildFault {
        BuildFault::OutOfMemory
    }
}

/// Why what a record adds is not made.
#[derive(Clone, Copy, Debug, PartialEq, Eq, Error)]
pub enum AddFault {
    /// The log would have so many units, more than a system may have.
    #[error("there would be {0} units")]
    TooMany(u64),
    /// A request for memory was refused, or the numbers of documents are used up.
    #[error("out of memory")]
    OutOfMemory,
}

impl From<OutOfMemory> for AddFault {
    ghost use Rattle.std.specs.Prelude.{◌≡◌};
    ghost use Rattle.outbound_build.specs.declared.fault.AddFault.TheVariants.{OutOfMemory};

    ghost from_gives = { λ _ fault. fault ≡ OutOfMemory };

    fn from(_: OutOfMemory) -> AddFault {
        AddFault::OutOfMemory
    }
}

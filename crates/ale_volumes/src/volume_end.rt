//! How a call on a volume fails.

ghost use Rattle.std.specs.Prelude.{◌≡◌};
ghost use Rattle.ale_volumes.specs.declared.volume_end.VolumeEnd.TheVariants.{Failed, OutOfMemory as NoMemory};

use ale_base::OutOfMemory;
use thiserror::Error;

/// A call on a volume failed.
#[derive(Clone, Copy, Debug, PartialEq, Eq, Error)]
#[error("volume fault")]
pub struct VolumeFailed;

/// Why a write did not end well.
#[derive(Clone, Copy, Debug, PartialEq, Eq, Error)]
pub enum VolumeEnd {
    /// The write failed, perhaps after a part of it.
    #[error("volume fault")]
    Failed,
    /// A request for memory was refused. Nothing was written.
    #[error("out of memory")]
    OutOfMemory,
}

impl From<OutOfMemory> for VolumeEnd {
    ghost from_gives = { λ _ end. end ≡ NoMemory };

    fn from(_: OutOfMemory) -> VolumeEnd {
        VolumeEnd::OutOfMemory
    }
}

impl From<VolumeFailed> for VolumeEnd {
    ghost from_gives = { λ _ end. end ≡ Failed };

    fn from(_: VolumeFailed) -> VolumeEnd {
        VolumeEnd::Failed
    }
}

//! Sixteen volumes of a disk that may fail or crash at any moment, as a trait, and in memory.
//!
//! Contract: each call says what a read then gives and what a crash may leave, where the implementation tells it; a
//! call on one volume leaves all others alone; and the volume's count of faults rises in the calls that answer `Failed`
//! and in no other. The definitions are in `specs/`: `Volume` (what is known of a volume, and its images), `Clock` (what a
//! crash at any moment leaves), `Faults`, `Memory` (what volumes in memory did).
#![tactic(auto)]

mod device_calls;
mod memory_volumes;
mod overwrite;
mod replay;
mod step;
mod survivors;
mod volume;
mod volume_end;
mod volumes;

pub use device_calls::DeviceCalls;
pub use memory_volumes::MemoryVolumes;
pub use step::Step;
pub use survivors::Survivors;
pub use volume::{UnsyncedWrite, Volume};
pub use volume_end::{VolumeEnd, VolumeFailed};
pub use volumes::Volumes;

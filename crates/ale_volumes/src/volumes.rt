//! The disk as its callers see it.

use crate::{VolumeEnd, VolumeFailed};

/// Sixteen volumes, numbered from 0, each a row of bytes that a crash may leave half written.
///
/// Between two syncs of a volume a crash may leave any bytes in each range that was written and past the old end, and
/// one of the lengths that the volume had; other bytes stay. After a sync it leaves what a read gives. A write that
/// fails counts as a write. A call on one volume leaves all others alone.
///
/// The count of a volume's faults rises in each call on it that fails, and in no other. A request for memory that was
/// refused is no fault of a volume: a call that answers want of memory counts none. So an implementation over files
/// tells a request for memory that it could not meet itself, which it counts nowhere and answers as `OutOfMemory`, from
/// an error of the system, which it counts and answers as `Failed`.
pub trait Volumes {
    ghost use Rattle.std.specs.Prelude.{◌≡◌, ◌≢◌, ◌↔◌, ℕ, List, ◌+◌, ◌<◌, ◌≤◌, length, take, drop, IfOk, OnOk, OnErr, IsErr, IsErrOf};
    ghost use Rattle.ale_volumes.specs.Disk.{Disk, LeftSince};
    ghost use Rattle.ale_volumes.specs.Volume.{IsImage, settled, written, FailsToWrite};
    ghost use Rattle.ale_volumes.specs.Clock.{Elapses, KeepsOthers};
    ghost use Rattle.ale_volumes.specs.Faults.{CountsFault};

    // What is known of the volumes. What is said of their bytes holds where it is told.
    ghost disk: { Disk Self };

    /// The length of volume `n`, in bytes.
    fn length(&mut self, n: u8) -> Result<u64, VolumeFailed>
        requires { n < 16 }
        ensures length { disk.told → IfOk result (λ len. len ≡ length (disk.volume self.old n).contents) }
        ensures same { disk.told → disk.volume self.new n ≡ disk.volume self.old n }

        ensures time { disk.told → Elapses disk self.old self.new n }
        ensures others { disk.told → KeepsOthers disk self.old self.new n }
        ensures faults { CountsFault (IsErr result) (disk.faults self.old) (disk.faults self.new) n };

    /// Reads the bytes of volume `n` from the place `at` on, as many as `into` has. After an `Err` nothing is said of
    /// `into`.
    fn read_at(&mut self, n: u8, at: u64, into: &mut [u8]) -> Result<(), VolumeFailed>
        requires number { n < 16 }
        requires range { disk.told → at + length into.old ≤ length (disk.volume self.old n).contents }
        ensures read { disk.told → OnOk result
            (into.new ≡ take (length into.old) (drop at (disk.volume self.old n).contents)) }
        ensures same { disk.told → disk.volume self.new n ≡ disk.volume self.old n }

        ensures time { disk.told → Elapses disk self.old self.new n }
        ensures others { disk.told → KeepsOthers disk self.old self.new n }
        ensures faults { CountsFault (IsErr result) (disk.faults self.old) (disk.faults self.new) n };

    /// Writes bytes to volume `n` from the place `at` on, over what is there and past its end. After `Failed` a part of
    /// the range may have been written.
    fn write_at(&mut self, n: u8, at: u64, bytes: &[u8]) -> Result<(), VolumeEnd>
        requires number { n < 16 }
        requires place { disk.told → at ≤ length (disk.volume self.old n).contents }
        ensures written { disk.told → OnOk result (disk.volume self.new n ≡ written (disk.volume self.old n) at bytes.now) }
        ensures torn { disk.told → IsErrOf result VolumeEnd.Failed →
            FailsToWrite (disk.volume self.old n) at bytes.now (disk.volume self.new n) }
        ensures unwritten { disk.told → IsErrOf result VolumeEnd.OutOfMemory → disk.volume self.new n ≡ disk.volume self.old n }

        ensures time { disk.told → Elapses disk self.old self.new n }
        ensures others { disk.told → KeepsOthers disk self.old self.new n }
        ensures faults { CountsFault (IsErrOf result VolumeEnd.Failed) (disk.faults self.old) (disk.faults self.new) n };

    /// Makes durable what a read of volume `n` gives. After an `Err` all is as before.
    fn sync(&mut self, n: u8) -> Result<(), VolumeFailed>
        requires { n < 16 }
        ensures durable { disk.told → OnOk result (disk.volume self.new n ≡ settled (disk.volume self.old n).contents) }
        ensures err { disk.told → OnErr result (disk.volume self.new n ≡ disk.volume self.old n) }

        ensures time { disk.told → Elapses disk self.old self.new n }
        ensures others { disk.told → KeepsOthers disk self.old self.new n }
        ensures faults { CountsFault (IsErr result) (disk.faults self.old) (disk.faults self.new) n };

    // A read gives one of the images.
    ghost read_is_image: { disk.told → (vols : Self) (n : ℕ) → IsImage (disk.volume vols n) (disk.volume vols n).contents };

    // This moment is one of those since an earlier one.
    ghost counts_now: { disk.told → (vols : Self) (n t : ℕ) (image : List ℕ) →
        t ≤ disk.moment vols → IsImage (disk.volume vols n) image → LeftSince disk vols n t image };

    // Since this moment there is no other.
    ghost only_now: { disk.told → (vols : Self) (n : ℕ) (image : List ℕ) →
        LeftSince disk vols n (disk.moment vols) image → IsImage (disk.volume vols n) image };
}

//! What is known of a volume: what a read gives, and what a crash leaves open.

ghost use Rattle.ale_volumes.specs.Survivors.{laid_over};
ghost use Rattle.std.specs.Prelude.{OnOk, ◌≡◌, ◌+◌, ◌<◌, ◌≤◌, ◌/◌, min, length, take, IfOk};

use crate::overwrite::{overwrite, overwrite_vec};
use crate::{Step, Survivors};
use ale_base::{Items, OutOfMemory};
use std::alloc::Global;

/// A write since the last sync of its volume.
#[derive(Drop)]
pub struct UnsyncedWrite {
    /// The place of its first byte.
    pub at: u64,
    /// What was written.
    pub bytes: Items<u8>,
}

/// What is known of a volume: what a read gives, and what a crash leaves open.
#[derive(Drop)]
pub struct Volume {
    /// What a read gives.
    pub contents: Items<u8>,
    /// What the last sync made durable.
    pub synced: Items<u8>,
    /// The lengths in bytes that the volume may have had since, oldest first.
    pub lengths: Items<u64>,
    /// The writes since, oldest first.
    pub writes: Items<UnsyncedWrite>,
}

impl Volume {
    ghost use Rattle.ale_volumes.specs.Volume.{IsImage, settled};
    ghost use Rattle.ale_volumes.specs.Memory.{after_step, place_in, written_or_half};
    ghost use Rattle.ale_volumes.specs.Survivors.{surviving};

    /// A volume that holds these bytes for good.
    pub fn settled(alloc: Global, bytes: &[u8]) -> Result<Volume, OutOfMemory>
        ensures { IfOk result (λ volume. volume ≡ settled bytes.now) }
    {
        let mut lengths = Items::new(alloc);
        lengths.push(bytes.len() as u64)?;
        Ok(Volume {
            contents: copy_of(alloc, bytes)?,
            synced: copy_of(alloc, bytes)?,
            lengths,
            writes: Items::new(alloc),
        })
    }

    /// This volume, of number `n`, after a step of the record of its calls.
    pub fn after(self, alloc: Global, n: u8, step: &Step) -> Result<Volume, OutOfMemory>
        ensures { IfOk result (λ volume. volume ≡ after_step n self step.now) }
    {
        match step {
            Step::Write {
                volume,
                at,
                bytes,
                failed,
            } if *volume == n => self.written(alloc, *at, bytes.as_slice(), *failed),
            Step::Sync { volume } if *volume == n => Volume::settled(
                alloc,
                self.contents.as_slice(),
            ),
            _ => Ok(self),
        }
    }

    /// What a crash leaves by this choice of what survives. It is one of the volume's images.
    pub fn image(&self, alloc: Global, survivors: &Survivors) -> Result<Items<u8>, OutOfMemory>
        requires { 0 < length self.now.lengths }
        ensures image { IfOk result (IsImage self.now) }
        ensures chosen { IfOk result (λ image. image ≡ surviving self.now survivors.now) }
    {
        let newest = self.lengths.len() - 1;
        let length = self.lengths[newest - survivors.length.min(newest)] as usize;
        let (kept, _) = self
            .synced
            .as_slice()
            .split_at(length.min(self.synced.len()));
        let mut image = Vec::from_slice(alloc, kept)?;
        image.resize(length, survivors.filler)?;
        for (i, write) in self.writes.as_slice().iter().enumerate() {
            let count = survivors.bytes.as_slice().get(i).copied().unwrap_or(0);
            lay_over(&mut image, write, count)?;
        }
        Ok(Items::from_vec(image))
    }

    /// This volume after a write, which may have failed.
    fn written(
        self,
        alloc: Global,
        at: u64,
        bytes: &[u8],
        failed: bool,
    ) -> Result<Volume, OutOfMemory>
        ensures { IfOk result (λ volume. volume ≡ written_or_half self (place_in self.contents at) bytes.now failed) }
    {
        let Volume {
            mut contents,
            synced,
            mut lengths,
            mut writes,
        } = self;
        let held = contents.len();
        let at = (at as usize).min(held);
        let left = if failed {
            left_of(bytes, held - at)
        } else {
            bytes
        };
        overwrite(alloc, &mut contents, at, left)?;
        let end = at.checked_add(bytes.len()).ok_or(OutOfMemory)?;
        lengths.push(held.max(end) as u64)?;
        writes.push(UnsyncedWrite {
            at: at as u64,
            bytes: copy_of(alloc, bytes)?,
        })?;
        Ok(Volume {
            contents,
            synced,
            lengths,
            writes,
        })
    }
}

/// Writes the first `count` bytes of a write, and none past the end.
fn lay_over(image: &mut Vec<u8>, write: &UnsyncedWrite, count: u64) -> Result<(), OutOfMemory>
    ensures { OnOk result (image.new.items ≡ laid_over (length image.old.items) image.old.items write.now count) }
{
    let length = image.len();
    let (front, _) = write
        .bytes
        .as_slice()
        .split_at(write.bytes.len().min(count as usize));
    overwrite_vec(image, write.at as usize, front)?;
    image.truncate(length);
    Ok(())
}

/// The part of a failing write that is left: half of its bytes, rounded up, at most as many as there is room for.
pub(crate) fn left_of(bytes: &[u8], room: usize) -> &[u8]
    ensures { result.now ≡ take (min ((length bytes.now + 1) / 2) room) bytes.now }
{
    let (left, _) = bytes.split_at(bytes.len().div_ceil(2).min(room));
    left
}

/// The bytes as a list of their own.
pub(crate) fn copy_of(alloc: Global, bytes: &[u8]) -> Result<Items<u8>, OutOfMemory>
    ensures { IfOk result (λ copy. copy ≡ bytes.now) }
{
    Ok(Items::from_vec(Vec::from_slice(alloc, bytes)?))
}

//! Writing bytes over others.

ghost use Rattle.std.specs.Prelude.{◌≡◌, length, min, OnOk, OnErr};
ghost use Rattle.ale_volumes.specs.Volume.{overwritten};
ghost use Rattle.ale_volumes.specs.Memory.{contents_after};

use crate::volume::left_of;
use ale_base::{Items, OutOfMemory};
use std::alloc::{AllocError, Global};
use std::mem;

/// What a read gives after a write, which may have failed and then leaves a part.
pub(crate) fn write_over(
    alloc: Global,
    held: &mut Items<u8>,
    at: usize,
    bytes: &[u8],
    failed: bool,
) -> Result<(), OutOfMemory>
    ensures ok { OnOk result (held.new ≡ contents_after held.old at bytes.now failed) }
    ensures err { OnErr result (held.new ≡ held.old) }
{
    let room = held.len() - at.min(held.len());
    let written = if failed { left_of(bytes, room) } else { bytes };
    overwrite(alloc, held, at, written)
}

/// Writes bytes over others from a place on, or from their end where the place is past it.
pub(crate) fn overwrite(
    alloc: Global,
    held: &mut Items<u8>,
    at: usize,
    bytes: &[u8],
) -> Result<(), OutOfMemory>
    ensures ok { OnOk result (held.new ≡ overwritten held.old (min at (length held.old)) bytes.now) }
    ensures err { OnErr result (held.new ≡ held.old) }
{
    let mut all = mem::replace(held, Items::new(alloc)).into_vec();
    let done = overwrite_vec(&mut all, at, bytes);
    *held = Items::from_vec(all);
    Ok(done?)
}

/// Writes bytes over those of a vector from a place on, or from their end where the place is past it.
pub(crate) fn overwrite_vec(held: &mut Vec<u8>, at: usize, bytes: &[u8]) -> Result<(), AllocError>
    ensures ok { OnOk result (held.new.items ≡ overwritten held.old.items (min at (length held.old.items)) bytes.now) }
    ensures err { OnErr result (held.new.items ≡ held.old.items) }
{
    let at = at.min(held.len());
    let (inside, past) = bytes.split_at(bytes.len().min(held.len() - at));
    held.extend_from_slice(past)?;
    let (_, behind) = held.as_mut_slice().split_at_mut(at);
    let (range, _) = behind.split_at_mut(inside.len());
    range.copy_from_slice(inside);
    Ok(())
}

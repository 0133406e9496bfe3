//! What volumes hold as runs start.

ghost use Rattle.std.specs.Prelude.{◌≡◌, ◌≤◌, ◌++◌, [], length, map, IfOk, OnOk};
ghost use Rattle.std.specs.List.{flat_map};
ghost use Rattle.worked_cases.specs.declared.case.Start.TheVariants.{Anew};
ghost use Rattle.worked_cases.specs.Starts.{starts, contents_of, image_of, images_at, images, survivors_of};

use crate::case::Start;
use ale_base::{Items, OutOfMemory};
use ale_volumes::{MemoryVolumes, Survivors};
use std::alloc::Global;
use std::array;

/// What sixteen volumes hold.
pub(crate) type Contents = [Items<u8>; 16];

/// What the volumes hold of which a run is made on each, where the run before it left these.
pub(crate) fn starts_of(
    alloc: Global,
    start: Start,
    before: &[MemoryVolumes],
) -> Result<Vec<Contents>, OutOfMemory>
    ensures { IfOk result (λ all. all.items ≡ starts start before.now) }
{
    match start {
        Start::Left => contents_of_all(alloc, before),
        Start::Anew => empty(alloc),
        Start::Crashed => crashes_of_all(alloc, before),
    }
}

/// What empty volumes hold.
fn empty(alloc: Global) -> Result<Vec<Contents>, OutOfMemory>
    ensures { IfOk result (λ all. all.items ≡ starts Anew []) }
{
    let mut all = Vec::new(alloc);
    all.push(array::from_fn(|_| Items::new(alloc)))?;
    Ok(all)
}

/// What each of these volumes hold.
fn contents_of_all(alloc: Global, before: &[MemoryVolumes]) -> Result<Vec<Contents>, OutOfMemory>
    ensures { IfOk result (λ all. all.items ≡ map contents_of before.now) }
{
    let mut all = Vec::new(alloc);
    for vols in before {
        all.push(contents_of(alloc, vols)?)?;
    }
    Ok(all)
}

/// What volumes hold.
pub(crate) fn contents_of(alloc: Global, vols: &MemoryVolumes) -> Result<Contents, OutOfMemory>
    ensures { IfOk result (λ contents. contents ≡ contents_of vols.now) }
{
    let mut contents = array::from_fn(|_| Items::new(alloc));
    for n in 0..16 {
        contents[usize::from(n)] = Items::from_slice(alloc, vols.contents(n))?;
    }
    Ok(contents)
}

/// A copy of what volumes hold.
pub(crate) fn copied(alloc: Global, contents: &Contents) -> Result<Contents, OutOfMemory>
    ensures { IfOk result (λ copy. copy ≡ contents.now) }
{
    let mut copy = array::from_fn(|_| Items::new(alloc));
    for n in 0..16 {
        copy[n] = Items::from_slice(alloc, contents[n].as_slice())?;
    }
    Ok(copy)
}

/// What crashes leave of each of these volumes.
fn crashes_of_all(alloc: Global, before: &[MemoryVolumes]) -> Result<Vec<Contents>, OutOfMemory>
    ensures { IfOk result (λ all. all.items ≡ flat_map images before.now) }
{
    let mut all = Vec::new(alloc);
    for vols in before {
        put_images(alloc, &mut all, vols)?;
    }
    Ok(all)
}

/// Adds what a crash at each moment leaves of volumes.
fn put_images(
    alloc: Global,
    all: &mut Vec<Contents>,
    vols: &MemoryVolumes,
) -> Result<(), OutOfMemory>
    ensures { OnOk result (all.new.items ≡ all.old.items ++ images vols.now) }
{
    let last = vols.clock();
    for moment in 0..last {
        put_choices(alloc, all, vols, moment)?;
    }
    put_choices(alloc, all, vols, last)
}

/// Adds what a crash at this moment leaves of volumes, by each choice.
fn put_choices(
    alloc: Global,
    all: &mut Vec<Contents>,
    vols: &MemoryVolumes,
    moment: u64,
) -> Result<(), OutOfMemory>
    requires { moment ≤ length vols.now.steps }
    ensures { OnOk result (all.new.items ≡ all.old.items ++ images_at vols.now moment) }
{
    for choice in 0..4 {
        all.push(image_of(alloc, vols, moment, choice)?)?;
    }
    Ok(())
}

/// What a crash at this moment leaves of volumes by this choice.
fn image_of(
    alloc: Global,
    vols: &MemoryVolumes,
    moment: u64,
    choice: u8,
) -> Result<Contents, OutOfMemory>
    requires { moment ≤ length vols.now.steps }
    ensures { IfOk result (λ image. image ≡ image_of vols.now moment choice) }
{
    let survivors = survivors_of(alloc, choice)?;
    let mut image = array::from_fn(|_| Items::new(alloc));
    for n in 0..16 {
        image[usize::from(n)] = vols.image(moment, n, &survivors)?;
    }
    Ok(image)
}

/// What is left of a write that was not synced, by the number of a choice: at first nothing, and the length from before it;
/// then more and more of its first bytes, behind which the volume is full of open gates.
fn survivors_of(alloc: Global, choice: u8) -> Result<Survivors, OutOfMemory>
    ensures { IfOk result (λ survivors. survivors ≡ survivors_of choice) }
{
    let (count, length) = match choice {
        0 => (0, 1),
        1 => (20, 0),
        2 => (640, 0),
        _ => (4860, 0),
    };
    let mut bytes = Items::new(alloc);
    bytes.push(count)?;
    Ok(Survivors {
        bytes,
        length,
        filler: b'O',
    })
}

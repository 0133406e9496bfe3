//! Which entries of an IDoc type are mandatory below each segment type, in tables.

ghost use Rattle.std.specs.Prelude.{◌≡◌, [], filter, replicate, None, Some, IfOk, OnOk};
ghost use Rattle.filter_objects.specs.FromLeaves.{is_needed, needs};
ghost use Rattle.filter_objects.specs.steps.Needs.{AreBelow, AreNeeds, IsAdded, needed_below};

use ale_base::{Items, OutOfMemory};
use segment_defs::{IdocType, TypeNo, TypePlace};
use std::alloc::Global;

/// The entries of an IDoc type that are mandatory, by where they are.
#[derive(Drop)]
pub(crate) struct Needs {
    /// Those at the root level.
    pub(crate) roots: Items<TypePlace>,
    /// Those below each segment type, by its number.
    pub(crate) below: Items<Items<TypePlace>>,
}

impl Needs {
    ghost use Rattle.std.specs.Prelude.{◌≡◌, Some};
    ghost use Rattle.filter_objects.specs.steps.Needs.{needs_at};

    /// The entries that are mandatory below a segment type.
    pub(crate) fn below(&self, segment: TypeNo) -> &[TypePlace]
        ensures { result.now ≡ needs_at self.now (Some segment) }
    {
        let number = segment.0;
        match self.below.get(usize::from(number)) {
            Some(entries) => entries.as_slice(),
            None => &[],
        }
    }
}

/// What an IDoc type over so many segment types needs.
pub(crate) fn needs_of(alloc: Global, types: usize, ty: &IdocType) -> Result<Needs, OutOfMemory>
    ensures { IfOk result (AreNeeds ty.now.segments types) }
{
    let roots = needed_roots(alloc, ty)?;
    let below = needed_lists(alloc, types, ty)?;
    Ok(Needs { roots, below })
}

/// The mandatory entries at the root level.
fn needed_roots(alloc: Global, ty: &IdocType) -> Result<Items<TypePlace>, OutOfMemory>
    ensures { IfOk result (λ roots. roots ≡ needs ty.now.segments None) }
{
    let mut roots = Items::new(alloc);
    let entries = ty.segments.as_slice();
    for entry in entries {
        if is_needed_root(ty, entry) {
            roots.push(*entry)?;
        }
    }
    Ok(roots)
}

/// Whether an entry is mandatory at the root level.
fn is_needed_root(ty: &IdocType, entry: &TypePlace) -> bool
    ensures { result ≡ is_needed ty.now.segments None entry.now }
{
    entry.mandatory && ty.type_above(entry).is_none()
}

/// The mandatory entries below each of so many segment types.
fn needed_lists(
    alloc: Global,
    types: usize,
    ty: &IdocType,
) -> Result<Items<Items<TypePlace>>, OutOfMemory>
    ensures { IfOk result (AreBelow ty.now.segments types ty.now.segments) }
{
    let mut lists = empty_lists(alloc, types)?;
    let entries = ty.segments.as_slice();
    for entry in entries {
        if let Some(above) = needed_below(ty, entry) {
            add(&mut lists, above, entry)?;
        }
    }
    Ok(lists)
}

/// The segment type below which an entry is mandatory.
fn needed_below(ty: &IdocType, entry: &TypePlace) -> Option<TypeNo>
    ensures { result ≡ needed_below ty.now.segments entry.now }
{
    if entry.mandatory {
        ty.type_above(entry)
    } else {
        None
    }
}

/// Adds an entry to the list of a segment type, if there is that list.
fn add(
    lists: &mut Items<Items<TypePlace>>,
    above: TypeNo,
    entry: &TypePlace,
) -> Result<(), OutOfMemory>
    ensures { OnOk result (IsAdded above entry.now lists.old lists.new) }
{
    let number = above.0;
    let place = usize::from(number);
    if place < lists.len() {
        lists.at_mut(place).push(*entry)?;
    }
    Ok(())
}

/// So many empty lists.
fn empty_lists(alloc: Global, count: usize) -> Result<Items<Items<TypePlace>>, OutOfMemory>
    ensures { IfOk result (λ lists. lists ≡ replicate count []) }
{
    let mut lists = Items::new(alloc);
    for _ in 0..count {
        lists.push(Items::new(alloc))?;
    }
    Ok(lists)
}

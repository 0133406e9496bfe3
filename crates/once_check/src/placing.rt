//! The places that units take in their outbound queues, each behind the units that its sender committed before.

ghost use Rattle.std.specs.Prelude.{◌≡◌, IfOk};
ghost use Rattle.unit_core.specs.Systems.{lent, of_system};
ghost use Rattle.once_check.specs.steps.Places.{places_of, ArePlacesOf, AreAllPlacesOf};

use crate::counting::{count, places_by};
use crate::lists::of_system;
use ale_base::{Items, OutOfMemory};
use std::alloc::Global;
use std::collections::BTreeMap;
use unit_core::AleUnit;

/// The places of each of these units.
fn places_in(alloc: Global, units: &[AleUnit]) -> Result<Items<Items<u64>>, OutOfMemory>
    ensures { IfOk result (ArePlacesOf units.now) }
{
    let mut counts = BTreeMap::new(alloc);
    let mut places = Items::new(alloc);
    for unit in units {
        let taken = places_by(alloc, &counts, unit)?;
        count(&mut counts, unit, taken.as_slice())?;
        places.push(taken)?;
    }
    Ok(places)
}

/// The places of each unit that each system committed.
pub(crate) fn all_places(
    alloc: Global,
    committed: &[&[AleUnit]],
) -> Result<Items<Items<Items<u64>>>, OutOfMemory>
    ensures { IfOk result (AreAllPlacesOf (of_system (lent committed.now))) }
{
    let mut all = Items::new(alloc);
    for units in committed {
        all.push(places_in(alloc, *units)?)?;
    }
    Ok(all)
}

/// The places of the unit of a number that its sender committed.
pub(crate) fn places_of<'a>(all: &'a [Items<Items<u64>>], unit: &AleUnit) -> &'a [u64]
    ensures { result.now ≡ places_of all.now unit.now }
{
    match of_system(all, unit.sender).get(unit.tid.unit() as usize - 1) {
        Some(places) => places.as_slice(),
        None => &[],
    }
}

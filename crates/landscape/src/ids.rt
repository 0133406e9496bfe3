//! The ids of units, by the numbers as which a table keeps them.

ghost use Rattle.std.specs.Prelude.{◌≡◌, ◌++◌, ◌∷◌, [], Some, None, map, filter, IfOk, OnOk, if◌then◌else◌};
ghost use Rattle.std.specs.List.{IsDistinct};
ghost use Rattle.ale_base.specs.Tid.{has_range, is_tid};
ghost use Rattle.tid_table.specs.Numbers.{tid_of};

use ale_base::{Items, OutOfMemory, SystemNo, Tid};
use std::alloc::Global;
use std::collections::BTreeSet;

/// The ids of these numbers, of system and unit, in order, each once. What is out of the range of ids is left out.
pub(crate) fn ids_of(
    alloc: Global,
    numbers: &BTreeSet<(u8, u32)>,
) -> Result<Items<Tid>, OutOfMemory>
    ensures are { IfOk result (λ tids. tids ≡ filter has_range (map tid_of numbers.now.keys)) }
    ensures apart { IfOk result (IsDistinct is_tid) }
{
    let _count = numbers.len();
    let mut tids = Items::new(alloc);
    for of_one in numbers {
        push_id(*of_one, &mut tids)?;
    }
    Ok(tids)
}

/// Adds the id of these numbers, if they are in its range.
fn push_id(of_one: (u8, u32), tids: &mut Items<Tid>) -> Result<(), OutOfMemory>
    ensures { OnOk result (tids.new ≡ tids.old ++ filter has_range (tid_of of_one ∷ [])) }
{
    match id_of(of_one) {
        None => Ok(()),
        Some(tid) => tids.push(tid),
    }
}

/// The id of these numbers. None exactly where they are out of its range.
fn id_of(of_one: (u8, u32)) -> Option<Tid>
    ensures { result ≡ (if has_range (tid_of of_one) then Some (tid_of of_one) else None) }
{
    let (number, unit) = of_one;
    match SystemNo::of(number) {
        None => None,
        Some(system) => id_at(system, unit),
    }
}

/// The id of a unit of a system. None exactly where the number is out of the range of units.
fn id_at(system: SystemNo, unit: u32) -> Option<Tid>
    ensures { result ≡ (if has_range (tid_of (system, unit)) then Some (tid_of (system, unit)) else None) }
{
    let _number = system.get();
    if unit == 0 || unit > Tid::MAX_UNIT {
        return None;
    }
    Some(Tid::of(system, unit))
}

//! Records that take in a unit.

ghost use Rattle.std.specs.Prelude.{◌≡◌, ◌+◌, ◌<◌, ◌^◌, ℕ, List, IfOk};
ghost use Rattle.std.specs.BTreeMap.{get};
ghost use Rattle.ale_base.specs.QueueName.{IsQueueName};
ghost use Rattle.unit_core.specs.Systems.{lent, of_system};
ghost use Rattle.once_check.specs.steps.Places.{key_of, keys_cmp, count_at, is_committed_for, IsTakenSo};
ghost use Rattle.once_check.specs.steps.Judged.{IsJudgedSo};

use crate::breach::Clause;
use crate::counting::{Key, count, places_by};
use crate::placing::places_of;
use crate::telling::{committed_unit, told_breach};
use crate::told::Told;
use ale_base::{Items, OutOfMemory, SystemNo};
use std::alloc::Global;
use std::collections::BTreeMap;
use unit_core::{AleUnit, Record, is_same_unit, taken_by};

/// Whether a unit is for this system, and the one of its number that its sender committed.
fn is_committed_for(committed: &[&[AleUnit]], system: SystemNo, unit: &AleUnit) -> bool
    ensures { result ≡ is_committed_for (of_system (lent committed.now)) system unit.now }
{
    if unit.receiver != system {
        return false;
    }
    match committed_unit(committed, unit.sender, unit.tid.unit()) {
        Some(own) => is_same_unit(unit, own),
        None => false,
    }
}

/// The clause that a unit breaks which a system takes in. One that breaks none is counted.
fn take(
    alloc: Global,
    committed: &[&[AleUnit]],
    places: &[Items<Items<u64>>],
    counts: &mut BTreeMap<Key, u64>,
    system: SystemNo,
    unit: &AleUnit,
) -> Result<Option<Clause>, OutOfMemory>
    requires { (sender receiver : ℕ) (name : List ℕ) → IsQueueName name → count_at (get keys_cmp counts.old) (key_of sender receiver name) + 1 < 2 ^ 64 }
    ensures { IfOk result (IsTakenSo (of_system (lent committed.now)) places.now system unit.now (get keys_cmp counts.old) (get keys_cmp counts.new)) }
{
    if !is_committed_for(committed, system, unit) {
        return Ok(Some(Clause::WasCommitted));
    }
    let taken = places_by(alloc, counts, unit)?;
    if taken.as_slice() != places_of(places, unit) {
        return Ok(Some(Clause::InOrder));
    }
    count(counts, unit, taken.as_slice())?;
    Ok(None)
}

/// The clause that a record breaks. A unit that is taken in and breaks none is counted.
pub(crate) fn judge(
    alloc: Global,
    committed: &[&[AleUnit]],
    all: &[Told],
    places: &[Items<Items<u64>>],
    counts: &mut BTreeMap<Key, u64>,
    system: SystemNo,
    next: &Record,
) -> Result<Option<Clause>, OutOfMemory>
    requires { (sender receiver : ℕ) (name : List ℕ) → IsQueueName name → count_at (get keys_cmp counts.old) (key_of sender receiver name) + 1 < 2 ^ 64 }
    ensures { IfOk result (IsJudgedSo (of_system (lent committed.now)) all.now places.now system next.now (get keys_cmp counts.old) (get keys_cmp counts.new)) }
{
    match taken_by(next) {
        Some(unit) => take(alloc, committed, places, counts, system, unit),
        None => Ok(told_breach(committed, all, system, next)),
    }
}

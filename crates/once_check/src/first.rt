//! The first breach of the law.

ghost use Rattle.std.specs.Prelude.{◌≡◌, ◌↔◌, ◌+◌, ◌<◌, ◌≤◌, ℕ, None, length, IfOk, MatchOption};
ghost use Rattle.unit_core.specs.Systems.{lent, of_system, AreNumbered};
ghost use Rattle.once_check.specs.Breaches.{IsUnbroken, IsFirstBreach};
ghost use Rattle.once_check.specs.steps.OneSystem.{IsUnbrokenIn, IsFirstIn};
ghost use Rattle.unit_core.specs.Inside.{IsLegalInside};
ghost use Rattle.once_check.specs.steps.Places.{AreAllPlacesOf};
ghost use Rattle.once_check.specs.steps.ToldIds.{AreToldBy};
ghost use Rattle.unit_core.specs.Once.{Once};

use crate::breach::{Breach, Clause};
use crate::lists::list_of;
use crate::placing::all_places;
use crate::taking::judge;
use crate::told::{Told, all_told};
use ale_base::{Items, OutOfMemory, SystemNo};
use std::alloc::Global;
use std::collections::BTreeMap;
use unit_core::{AleUnit, Record};

/// The first record that breaks a clause of the exactly-once law, by systems, then by records, then by clauses, of the logs of all systems
/// and the units that each of them committed, that of system 1 first.
///
/// The units of each system are numbered: the one at place k, from 0, has in its id the system and k + 1, and the system is its sender. Of
/// logs that are each legal by themselves there is none exactly where the law holds.
pub fn first_breach(
    alloc: Global,
    logs: &[&[Record]],
    committed: &[&[AleUnit]],
) -> Result<Option<Breach>, OutOfMemory>
    requires few { length logs.now ≤ 16 }
    requires numbered { AreNumbered (of_system (lent committed.now)) }
    ensures first { IfOk result (λ found. MatchOption found (IsUnbroken (of_system (lent committed.now)) (of_system (lent logs.now)))
        (IsFirstBreach (of_system (lent committed.now)) (of_system (lent logs.now)))) }
    ensures once { IfOk result (λ found. ((system : ℕ) → IsLegalInside (of_system (lent logs.now) system)) → (found ≡ None) ↔ Once (of_system (lent committed.now)) (of_system (lent logs.now))) }
{
    find_breach(alloc, logs, committed)
}

/// The first breach, system by system.
fn find_breach(
    alloc: Global,
    logs: &[&[Record]],
    committed: &[&[AleUnit]],
) -> Result<Option<Breach>, OutOfMemory>
    requires few { length logs.now ≤ 16 }
    requires numbered { AreNumbered (of_system (lent committed.now)) }
    ensures { IfOk result (λ found. MatchOption found (IsUnbroken (of_system (lent committed.now)) (of_system (lent logs.now)))
        (IsFirstBreach (of_system (lent committed.now)) (of_system (lent logs.now)))) }
{
    let all = all_told(alloc, logs)?;
    let places = all_places(alloc, committed)?;
    for at in 0..logs.len() {
        let system = system_at(at);
        let found = first_in(
            alloc,
            logs,
            committed,
            all.as_slice(),
            places.as_slice(),
            system,
        )?;
        if let Some((number, clause)) = found {
            return Ok(Some(Breach {
                system,
                number,
                clause,
            }));
        }
    }
    Ok(None)
}

/// The system at a place from 0.
fn system_at(at: usize) -> SystemNo
    requires { at < 16 }
    ensures { result ≡ at + 1 }
{
    match SystemNo::of(at as u8 + 1) {
        Some(system) => system,
        // There are 16 systems at most.
        None => unreachable!(),
    }
}

/// The number and the clause of the first breach in the log of a system.
fn first_in(
    alloc: Global,
    logs: &[&[Record]],
    committed: &[&[AleUnit]],
    all: &[Told],
    places: &[Items<Items<u64>>],
    system: SystemNo,
) -> Result<Option<(u64, Clause)>, OutOfMemory>
    requires numbered { AreNumbered (of_system (lent committed.now)) }
    requires told { AreToldBy (of_system (lent logs.now)) all.now }
    requires placed { AreAllPlacesOf (of_system (lent committed.now)) places.now }
    ensures { IfOk result (λ found. MatchOption found (IsUnbrokenIn (of_system (lent committed.now)) (of_system (lent logs.now)) system)
        (λ at. IsFirstIn (of_system (lent committed.now)) (of_system (lent logs.now)) system at.0 at.1)) }
{
    let log = list_of(logs, system);
    let mut counts = BTreeMap::new(alloc);
    for (place, next) in log.iter().enumerate() {
        let broken = judge(alloc, committed, all, places, &mut counts, system, next)?;
        if let Some(clause) = broken {
            return Ok(Some((place as u64 + 1, clause)));
        }
    }
    Ok(None)
}

//! The plain law of logs: those that a world may have, and those that a case gives.

use crate::listed_rules::{ListedRules, commits_of};
use crate::units::{Lists, front_of};
use ale_base::{Items, OutOfMemory};
use case_form::Text;
use plain_law::Logs;
use std::alloc::Global;
use trfc_protocol::{SystemState, World};
use unit_core::Record;

/// The logs of all systems, from system 1 on.
pub(crate) type AllLogs = Items<Items<Record>>;

/// Copies of the logs of a world, with what a system may find at its opening where its bit is set: the lowest bit is that of
/// system 1.
pub(crate) fn logs_found(
    alloc: Global,
    world: &World<ListedRules>,
    choice: u32,
) -> Result<AllLogs, OutOfMemory> {
    let mut logs = Items::new(alloc);
    let mut bits = choice;
    for state in &world.systems {
        logs.push(log_found(state, bits % 2 == 1)?)?;
        bits /= 2;
    }
    Ok(logs)
}

/// A copy of the log of a system, with what it may find or without.
fn log_found(state: &SystemState, is_found: bool) -> Result<Items<Record>, OutOfMemory> {
    let mut log = state.log.clone()?;
    if is_found {
        add_rest(&mut log, &state.rest)?;
    }
    Ok(log)
}

fn add_rest(log: &mut Items<Record>, rest: &Option<Record>) -> Result<(), OutOfMemory> {
    match rest {
        Some(rest) => log.push(rest.copied()?),
        None => Ok(()),
    }
}

/// Logs for the plain law. Each system committed so many of the units that it lists, or one a Commit of its log.
pub(crate) fn law_of<'a>(
    alloc: Global,
    lists: &'a Lists,
    logs: &'a AllLogs,
    committed: Option<usize>,
) -> Result<Logs<'a>, OutOfMemory> {
    let mut law = Logs::new(alloc);
    for (place, log) in logs.iter().enumerate() {
        let log = log.as_slice();
        let count = committed.unwrap_or(commits_of(log));
        law.add(log, front_of(lists, place, count))?;
    }
    Ok(law)
}

/// Puts the clauses of the law that logs break.
pub(crate) fn put_broken(
    alloc: Global,
    text: &mut Text,
    lists: &Lists,
    logs: &AllLogs,
    committed: Option<usize>,
) -> Result<(), OutOfMemory> {
    let law = law_of(alloc, lists, logs, committed)?;
    let broken = law.broken();
    drop(law);
    text.put(broken?.as_slice())
}

//! Logs made by hand, read record by record, and judged by the law.

ghost use Rattle.std.specs.Prelude.{◌≡◌, IsTrue, All, length, take, map, IfOk};
ghost use Rattle.unit_core.specs.Systems.{lent};
ghost use Rattle.log_tables.specs.Read.{IsProper};

use crate::laws::AllLogs;
use crate::listed_rules::{ListedRules, MOST_QUEUES};
use crate::listed_tables::NoTables;
use ale_base::{Items, OutOfMemory, SystemNo};
use log_reading::{BadRecord, read_log};
use once_check::{Breach, first_breach};
use std::alloc::Global;
use unit_core::{AleUnit, Record, are_different};

/// What a log is read as.
#[derive(Clone, Copy)]
pub(crate) enum Verdict {
    /// It is not read: a unit is accepted whose inbound queues are too many or do not differ, or a record has no moment.
    Refused,
    /// Each record is good.
    Good,
    /// This record is the first that is bad.
    Bad(BadRecord),
}

/// What the log of the system at a place, from 0, is read as, in a landscape whose Genesis has this text.
pub(crate) fn read_at(
    alloc: Global,
    rules: &ListedRules,
    place: usize,
    text: &[u8],
    moments: &[Option<u64>],
    log: &[Record],
) -> Result<Verdict, OutOfMemory> {
    if place >= SystemNo::MAX as usize || moments.len() != log.len() || !are_proper(log) {
        return Ok(Verdict::Refused);
    }
    match SystemNo::of(place as u8 + 1) {
        Some(system) => read_of(alloc, rules, system, text, moments, log),
        None => Ok(Verdict::Refused),
    }
}

/// What the log of a system is read as.
fn read_of(
    alloc: Global,
    rules: &ListedRules,
    system: SystemNo,
    text: &[u8],
    moments: &[Option<u64>],
    log: &[Record],
) -> Result<Verdict, OutOfMemory>
    requires proper { All IsProper log.now }
    requires moments { length moments.now ≡ length log.now }
{
    match read_log(alloc, rules, &mut (), system, text, NoTables, moments, log)? {
        Ok(_) => Ok(Verdict::Good),
        Err(bad) => Ok(Verdict::Bad(bad)),
    }
}

/// Whether each unit that is accepted has few inbound queues, which differ.
fn are_proper(log: &[Record]) -> bool
    ensures { IsTrue result → All IsProper log.now }
{
    for next in log {
        if !is_proper(next) {
            return false;
        }
    }
    true
}

fn is_proper(next: &Record) -> bool
    ensures { IsTrue result → IsProper next.now }
{
    match next {
        Record::Accept { unit } => {
            unit.inq.len() <= MOST_QUEUES && are_different(unit.inq.as_slice())
        }
        _ => true,
    }
}

/// The first breach of the law by logs, where each system committed so many of the units that it lists. None too where there are more
/// logs than systems may be.
pub(crate) fn breach_of(
    alloc: Global,
    rules: &ListedRules,
    logs: &AllLogs,
    committed: usize,
) -> Result<Option<Breach>, OutOfMemory> {
    let fronts = fronts_of(alloc, rules.units.as_slice(), committed)?;
    let mut lent = Vec::new(alloc);
    for log in logs {
        lent.push(log.as_slice())?;
    }
    if lent.len() > 16 {
        return Ok(None);
    }
    first_breach(alloc, lent.as_slice(), fronts.as_slice())
}

/// The first units of each list, so many.
fn fronts_of<'a>(
    alloc: Global,
    lists: &'a [Items<AleUnit>],
    committed: usize,
) -> Result<Vec<&'a [AleUnit]>, OutOfMemory>
    ensures { IfOk result (λ fronts. lent fronts.items ≡ map (take committed) lists.now) }
{
    let mut fronts = Vec::new(alloc);
    for units in lists {
        fronts.push(front(units.as_slice(), committed))?;
    }
    Ok(fronts)
}

/// The first units of a list, so many.
fn front(units: &[AleUnit], count: usize) -> &[AleUnit]
    ensures { result.now ≡ take count units.now }
{
    if count < units.len() {
        &units[..count]
    } else {
        units
    }
}

//! How the logs that volumes hold are judged.

ghost use Rattle.std.specs.Prelude.{◌≤◌, IfSome};

use ale_base::{Items, OutOfMemory, SystemNo};
use ale_volumes::MemoryVolumes;
use document_state::ModelRules;
use plain_law::Logs;
use said_models::Readings;
use std::alloc::Global;
use trfc_protocol::{Rules, is_legal};
use unit_codec::Entry;
use unit_core::{AleUnit, Record, ended_in, is_listed};
use unit_journal::{LogFault, open};

/// What is asked of logs.
#[derive(Clone, Copy)]
pub(crate) enum Question {
    /// Which clauses of the law they break.
    Law,
    /// Which of the units that they committed are not ended.
    Ended,
}

/// What is told of the logs that these volumes hold, the first of them that of system 1: the answer to this question, or that
/// one is not read, or is not legal. The journals may be closed by this.
pub(crate) fn told_of_logs(
    alloc: Global,
    mut vols: MemoryVolumes,
    question: Question,
) -> Result<Vec<u8>, OutOfMemory> {
    match logs_of(alloc, &mut vols)? {
        Some(logs) => judged(alloc, logs.as_slice(), question),
        None => told(alloc, b"a journal is not read\n"),
    }
}

fn told(alloc: Global, text: &[u8]) -> Result<Vec<u8>, OutOfMemory> {
    Ok(Vec::from_slice(alloc, text)?)
}

/// The logs of the volumes up to the first empty one. None where one is not read.
fn logs_of(
    alloc: Global,
    vols: &mut MemoryVolumes,
) -> Result<Option<Items<Items<Record>>>, OutOfMemory> {
    let mut logs = Items::new(alloc);
    for n in 0..16 {
        if vols.contents(n).is_empty() {
            break;
        }
        match open(alloc, vols, n) {
            Ok((_journal, entries)) => logs.push(records_of(alloc, entries)?)?,
            Err(LogFault::OutOfMemory) => return Err(OutOfMemory),
            Err(_) => return Ok(None),
        }
    }
    Ok(Some(logs))
}

/// The records of entries.
fn records_of(alloc: Global, entries: Items<Entry>) -> Result<Items<Record>, OutOfMemory> {
    let mut records = Items::new(alloc);
    for entry in entries.into_vec() {
        let Entry { what, .. } = entry;
        records.push(what)?;
    }
    Ok(records)
}

/// What is told of logs that were read.
fn judged(
    alloc: Global,
    logs: &[Items<Record>],
    question: Question,
) -> Result<Vec<u8>, OutOfMemory> {
    let Some(rules) = rules_of(alloc, logs)? else {
        return told(alloc, b"no log says a model\n");
    };
    let Some(committed) = committed_by(alloc, &rules, logs)? else {
        return told(alloc, b"a log is not legal\n");
    };
    match question {
        Question::Law => judged_beside(alloc, logs, committed.as_slice()),
        Question::Ended => not_ended(alloc, logs, committed.as_slice()),
    }
}

/// The rules of the model that the first log says.
fn rules_of(alloc: Global, logs: &[Items<Record>]) -> Result<Option<ModelRules>, OutOfMemory> {
    if logs.is_empty() || logs.len() > 16 {
        return Ok(None);
    }
    let Some(Record::Genesis { text, .. }) = logs[0].get(0) else {
        return Ok(None);
    };
    match Readings::new(alloc).model(alloc, text.as_slice())? {
        Some(_) => Ok(Some(ModelRules::new(logs.len() as u8))),
        None => Ok(None),
    }
}

/// The units that each system committed. None where a log is not legal.
fn committed_by(
    alloc: Global,
    rules: &ModelRules,
    logs: &[Items<Record>],
) -> Result<Option<Items<Items<AleUnit>>>, OutOfMemory> {
    let mut committed = Items::new(alloc);
    for (place, log) in logs.iter().enumerate() {
        let Some(system) = system_at(place, rules.systems()) else {
            return Ok(None);
        };
        if !is_legal(alloc, rules, system, log.as_slice())? {
            return Ok(None);
        }
        committed.push(Items::from_vec(rules.units(alloc, system, log.as_slice())?))?;
    }
    Ok(Some(committed))
}

/// The system at a place, from 0, of so many.
fn system_at(place: usize, systems: u8) -> Option<SystemNo>
    ensures { IfSome result (λ system. system ≤ systems) }
{
    if place >= usize::from(systems) {
        return None;
    }
    SystemNo::of(place as u8 + 1)
}

/// What is told of logs beside the units that their systems committed.
fn judged_beside(
    alloc: Global,
    logs: &[Items<Record>],
    committed: &[Items<AleUnit>],
) -> Result<Vec<u8>, OutOfMemory> {
    let mut law = Logs::new(alloc);
    for (log, units) in logs.iter().zip(committed.iter()) {
        law.add(log.as_slice(), units.as_slice())?;
    }
    law.broken()
}

/// The units that systems committed and that are not ended in their logs, a line each, or that all are.
fn not_ended(
    alloc: Global,
    logs: &[Items<Record>],
    committed: &[Items<AleUnit>],
) -> Result<Vec<u8>, OutOfMemory> {
    let mut text = Vec::new(alloc);
    for (log, units) in logs.iter().zip(committed.iter()) {
        let ended = ended_in(alloc, log.as_slice())?;
        for unit in units {
            if !is_listed(unit.tid, ended.as_slice()) {
                text.extend_from_slice(b"not ended: ")?;
                text.extend_from_slice(&unit.tid.bytes())?;
                text.push(b'\n')?;
            }
        }
    }
    if text.is_empty() {
        return told(alloc, b"all ended\n");
    }
    Ok(text)
}

//! Logs made by hand: what they tell, whether they are legal, and which clauses of the law they break.

use crate::bench::ItemWord;
use crate::fault::Fault;
use crate::judging::{Verdict, breach_of, read_at};
use crate::laws::{AllLogs, put_broken};
use crate::listed_rules::ListedRules;
use crate::listing::{put_numbered, put_of_unit, put_system};
use crate::records::read_record;
use crate::units::Lists;
use crate::words::Words;
use ale_base::{Items, OutOfMemory, QueueName, SystemNo, Tid, Way};
use case_form::{BlockLine, Text};
use log_reading::Cause;
use once_check::{Breach, Clause};
use std::alloc::Global;
use trfc_protocol::is_legal;
use unit_core::{
    AleUnit, Record, done_in, ended_in, executed, forgotten_in, is_marked, is_stopped, received,
};

/// Logs that a case gives.
#[derive(Drop)]
pub(crate) struct Given {
    alloc: Global,
    /// The logs, from system 1 on.
    logs: AllLogs,
    /// The moments of their records.
    moments: Items<Items<Option<u64>>>,
    /// How many of its units each system committed.
    committed: usize,
}

impl Given {
    /// No logs, and each system committed all that it lists.
    pub(crate) fn new(alloc: Global) -> Given {
        Given {
            alloc,
            logs: Items::new(alloc),
            moments: Items::new(alloc),
            committed: usize::MAX,
        }
    }

    pub(crate) fn is_empty(&self) -> bool {
        self.logs.is_empty()
    }

    /// How many of its listed units each system committed.
    pub(crate) fn read_committed(&mut self, words: &mut Words) -> Result<(), Fault> {
        self.committed = words.number()? as usize;
        Ok(())
    }

    /// Reads new logs: each line is a system and a record, and its moment where it has one.
    pub(crate) fn read_logs(&mut self, lists: &Lists, block: &[BlockLine]) -> Result<(), Fault> {
        self.logs = Items::new(self.alloc);
        self.moments = Items::new(self.alloc);
        for _ in lists {
            self.logs.push(Items::new(self.alloc))?;
            self.moments.push(Items::new(self.alloc))?;
        }
        for line in block {
            self.read_line(lists, line.text.as_slice())?;
        }
        Ok(())
    }

    /// Adds the record of a line to the log of its system.
    fn read_line(&mut self, lists: &Lists, line: &[u8]) -> Result<(), Fault> {
        let mut words = Words::of(line);
        let at = words.system()?.get() as usize - 1;
        if at >= self.logs.len() || at >= self.moments.len() {
            return Err(Fault::NoSystem);
        }
        let record = read_record(self.alloc, lists, &mut words)?;
        self.logs.at_mut(at).push(record)?;
        self.moments.at_mut(at).push(words.moment()?)?;
        words.end()
    }

    /// Puts what a step asks of the logs.
    pub(crate) fn put(
        &self,
        text: &mut Text,
        lists: &Lists,
        word: ItemWord,
        words: &mut Words,
    ) -> Result<(), Fault> {
        match word {
            ItemWord::Told => self.put_told(text, words),
            ItemWord::Marked => self.put_marked(text, words),
            ItemWord::Stopped => self.put_stopped(text, words),
            ItemWord::Legal => Ok(self.put_legal(text, lists)?),
            ItemWord::Read => Ok(self.put_read(text, lists, words.rest())?),
            ItemWord::Breach => Ok(self.put_breach(text, lists)?),
            _ => Ok(put_broken(self.alloc, text, lists, &self.logs, Some(self.committed))?),
        }
    }

    /// Puts of each log whether it is legal, by rules that list these units.
    fn put_legal(&self, text: &mut Text, lists: &Lists) -> Result<(), OutOfMemory> {
        let Some(rules) = ListedRules::of(lists.clone()?) else {
            return text.put_line(b"refused");
        };
        for (place, log) in self.logs.iter().enumerate() {
            if is_legal_at(self.alloc, &rules, place, log.as_slice())? {
                put_place(text, place, b"legal")?;
            } else {
                put_place(text, place, b"not legal")?;
            }
        }
        Ok(())
    }

    /// Puts what each log is read as, by rules that list these units, where a Genesis has this text.
    fn put_read(&self, text: &mut Text, lists: &Lists, genesis: &[u8]) -> Result<(), OutOfMemory> {
        let Some(rules) = ListedRules::of(lists.clone()?) else {
            return text.put_line(b"refused");
        };
        for (place, (log, moments)) in self.logs.iter().zip(self.moments.iter()).enumerate() {
            let log = log.as_slice();
            let read = read_at(self.alloc, &rules, place, genesis, moments.as_slice(), log)?;
            put_verdict(text, place, read)?;
        }
        Ok(())
    }

    /// Puts the first breach of the law.
    fn put_breach(&self, text: &mut Text, lists: &Lists) -> Result<(), OutOfMemory> {
        let Some(rules) = ListedRules::of(lists.clone()?) else {
            return text.put_line(b"refused");
        };
        match breach_of(self.alloc, &rules, &self.logs, self.committed)? {
            None => text.put_line(b"none"),
            Some(breach) => put_breach_at(text, breach),
        }
    }

    /// Puts what the log of a system tells of its units.
    fn put_told(&self, text: &mut Text, words: &mut Words) -> Result<(), Fault> {
        let log = match self.logs.get(words.system()?.get() as usize - 1) {
            Some(log) => log.as_slice(),
            None => &[],
        };
        put_tids(text, b"received", received_tids(self.alloc, log))?;
        put_tids(text, b"executed", executed(self.alloc, log))?;
        put_tids(text, b"done", done_in(self.alloc, log))?;
        put_tids(text, b"ended", ended_in(self.alloc, log))?;
        Ok(put_tids(text, b"forgotten", forgotten_in(self.alloc, log))?)
    }

    /// Puts in which directions a unit is marked, system by system.
    fn put_marked(&self, text: &mut Text, words: &mut Words) -> Result<(), Fault> {
        let tid = words.tid()?;
        for (place, log) in self.logs.iter().enumerate() {
            if is_marked(Way::Outgoing, tid, log.as_slice()) {
                put_place(text, place, b"outgoing")?;
            }
            if is_marked(Way::Incoming, tid, log.as_slice()) {
                put_place(text, place, b"incoming")?;
            }
        }
        Ok(put_none(text)?)
    }

    /// Puts which queues of a name are stopped, system by system.
    fn put_stopped(&self, text: &mut Text, words: &mut Words) -> Result<(), Fault> {
        let name = words.name()?;
        for (place, log) in self.logs.iter().enumerate() {
            if is_stopped(Way::Incoming, 0, name, log.as_slice()) {
                put_place(text, place, b"incoming")?;
            }
            put_stopped_outbound(text, place, name, log.as_slice())?;
        }
        Ok(put_none(text)?)
    }
}

/// Puts a line: the system at a place, and what its log is read as.
fn put_verdict(text: &mut Text, place: usize, read: Verdict) -> Result<(), OutOfMemory> {
    match read {
        Verdict::Refused => put_place(text, place, b"refused"),
        Verdict::Good => put_place(text, place, b"read"),
        Verdict::Bad(bad) => {
            put_system(text, place)?;
            put_numbered(text, b"record", bad.number)?;
            put_cause(text, bad.cause)
        }
    }
}

/// Puts the rest of a line: why a record is bad.
fn put_cause(text: &mut Text, cause: Cause) -> Result<(), OutOfMemory> {
    match cause {
        Cause::System { kept, expected } => {
            put_numbered(text, b" of system", u64::from(kept))?;
            put_numbered(text, b" in the log of", u64::from(expected))?;
        }
        Cause::Model { place } => put_numbered(text, b" of a model that differs at", place)?,
        Cause::Illegal => text.put(b" illegal")?,
    }
    text.end_line()
}

/// Puts a line: the record that breaks the law, and the letter of the clause.
fn put_breach_at(text: &mut Text, breach: Breach) -> Result<(), OutOfMemory> {
    put_system(text, usize::from(breach.system.get()) - 1)?;
    put_numbered(text, b"record", breach.number)?;
    text.put_line(match breach.clause {
        Clause::WasCommitted => b" breaks b",
        Clause::InOrder => b" breaks c",
        Clause::WasTaken => b" breaks e",
        Clause::WasDone => b" breaks f",
        Clause::WasForgotten => b" breaks g",
    })
}

/// Puts to which systems the queue of a name is stopped.
fn put_stopped_outbound(
    text: &mut Text,
    place: usize,
    name: QueueName,
    log: &[Record],
) -> Result<(), OutOfMemory> {
    for destination in 1..=SystemNo::MAX {
        if is_stopped(Way::Outgoing, destination, name, log) {
            put_destination(text, place, destination)?;
        }
    }
    Ok(())
}

fn put_destination(text: &mut Text, place: usize, destination: u8) -> Result<(), OutOfMemory> {
    put_system(text, place)?;
    put_numbered(text, b"outgoing to", u64::from(destination))?;
    text.end_line()
}

/// Whether the log of the system at a place is legal.
fn is_legal_at(
    alloc: Global,
    rules: &ListedRules,
    place: usize,
    log: &[Record],
) -> Result<bool, OutOfMemory> {
    if place >= rules.units.len() || place >= SystemNo::MAX as usize {
        return Ok(false);
    }
    match SystemNo::of(place as u8 + 1) {
        Some(system) => is_legal(alloc, rules, system, log),
        None => Ok(false),
    }
}

/// The ids of the units that a log received.
fn received_tids(alloc: Global, log: &[Record]) -> Result<Vec<Tid>, OutOfMemory> {
    let units = received(alloc, log)?;
    tids_of(alloc, units.as_slice())
}

fn tids_of(alloc: Global, units: &[AleUnit]) -> Result<Vec<Tid>, OutOfMemory> {
    let mut tids = Vec::new(alloc);
    for unit in units {
        tids.push(unit.tid)?;
    }
    Ok(tids)
}

/// Puts a line: a name, and ids or that there are none.
fn put_tids(
    text: &mut Text,
    name: &[u8],
    told: Result<Vec<Tid>, OutOfMemory>,
) -> Result<(), OutOfMemory> {
    let tids = told?;
    text.put(name)?;
    if tids.is_empty() {
        text.put(b" none")?;
    }
    for tid in &tids {
        put_of_unit(text, b"", *tid)?;
    }
    text.end_line()
}

/// Puts a line: the system at a place, and a word.
fn put_place(text: &mut Text, place: usize, word: &[u8]) -> Result<(), OutOfMemory> {
    put_system(text, place)?;
    text.put_line(word)
}

/// Puts that there is none, where nothing was put.
fn put_none(text: &mut Text) -> Result<(), OutOfMemory> {
    if text.is_empty() {
        text.put_line(b"none")?;
    }
    Ok(())
}

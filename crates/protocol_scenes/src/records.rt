//! Records as lines of text.

use crate::fault::Fault;
use crate::units::Lists;
use crate::words::Words;
use ale_base::{DocNum, Items, Mark, OutOfMemory, QueueName, Tid, Way};
use std::alloc::Global;
use unit_core::{AleUnit, Record};

/// A record of one unit.
#[derive(Clone, Copy)]
pub(crate) enum UnitRecord {
    Done,
    Ended,
    Accept,
    Execute,
    Direct,
    Fail,
    Forget,
    RetryOut,
    RetryIn,
    /// A Mark for want of an answer.
    Lost,
    /// A Mark since the receiver refused the unit.
    Refused,
}

/// What the name of a record begins.
#[derive(Clone, Copy)]
enum RecordWord {
    OfUnit(UnitRecord),
    Mark,
    Stop(Way),
    Start(Way),
    Genesis,
    Commit,
    Dispatch,
    Put,
    App,
    Repost,
    Model,
}

const RECORDS: [(&'static [u8], RecordWord); 21] = [
    (b"Done", RecordWord::OfUnit(UnitRecord::Done)),
    (b"Ended", RecordWord::OfUnit(UnitRecord::Ended)),
    (b"Accept", RecordWord::OfUnit(UnitRecord::Accept)),
    (b"Execute", RecordWord::OfUnit(UnitRecord::Execute)),
    (b"Direct", RecordWord::OfUnit(UnitRecord::Direct)),
    (b"Fail", RecordWord::OfUnit(UnitRecord::Fail)),
    (b"Forget", RecordWord::OfUnit(UnitRecord::Forget)),
    (b"Retry outgoing", RecordWord::OfUnit(UnitRecord::RetryOut)),
    (b"Retry incoming", RecordWord::OfUnit(UnitRecord::RetryIn)),
    (b"Mark", RecordWord::Mark),
    (b"Stop outgoing", RecordWord::Stop(Way::Outgoing)),
    (b"Stop incoming", RecordWord::Stop(Way::Incoming)),
    (b"Start outgoing", RecordWord::Start(Way::Outgoing)),
    (b"Start incoming", RecordWord::Start(Way::Incoming)),
    (b"Genesis", RecordWord::Genesis),
    (b"Commit", RecordWord::Commit),
    (b"Dispatch", RecordWord::Dispatch),
    (b"Put", RecordWord::Put),
    (b"App", RecordWord::App),
    (b"Repost", RecordWord::Repost),
    (b"Model", RecordWord::Model),
];

const CAUSES: [(&'static [u8], UnitRecord); 2] = [
    (b"CPICERR", UnitRecord::Lost),
    (b"SYSFAIL", UnitRecord::Refused),
];

/// Reads a record.
pub(crate) fn read_record(
    alloc: Global,
    lists: &Lists,
    words: &mut Words,
) -> Result<Record, Fault> {
    match words.choice(&RECORDS, Fault::BadRecord)? {
        RecordWord::OfUnit(kind) => Ok(record_of(kind, words.unit(lists)?)?),
        RecordWord::Mark => read_mark(lists, words),
        RecordWord::Stop(way) => Ok(switch(true, way, words.byte()?, words.name()?)),
        RecordWord::Start(way) => Ok(switch(false, way, words.byte()?, words.name()?)),
        RecordWord::Genesis => read_genesis(alloc, words),
        RecordWord::App => Ok(app(words.number()?)),
        RecordWord::Repost => Ok(repost(words.number()?)),
        RecordWord::Model => Ok(model(Items::from_slice(alloc, words.rest())?)),
        RecordWord::Commit => Ok(no_document(alloc)),
        RecordWord::Put => Ok(put(alloc)),
        RecordWord::Dispatch => Ok(Record::Dispatch),
    }
}

/// A Mark: a unit, and the cause.
fn read_mark(lists: &Lists, words: &mut Words) -> Result<Record, Fault> {
    let unit = words.unit(lists)?;
    let kind = words.choice(&CAUSES, Fault::BadRecord)?;
    Ok(record_of(kind, unit)?)
}

/// A record of this kind, with this unit or its id.
pub(crate) fn record_of(kind: UnitRecord, unit: &AleUnit) -> Result<Record, OutOfMemory> {
    match kind {
        UnitRecord::Accept => accept(unit),
        UnitRecord::Direct => direct(unit),
        _ => Ok(told(kind, unit.tid)),
    }
}

fn accept(unit: &AleUnit) -> Result<Record, OutOfMemory> {
    let unit = unit.clone()?;
    Ok(Record::Accept { unit })
}

fn direct(unit: &AleUnit) -> Result<Record, OutOfMemory> {
    let unit = unit.clone()?;
    Ok(Record::Direct { unit })
}

/// A record with the id of a unit.
fn told(kind: UnitRecord, tid: Tid) -> Record {
    match kind {
        UnitRecord::Done => Record::Done { tid },
        UnitRecord::Ended => Record::Ended { tid },
        UnitRecord::Execute => Record::Execute { tid },
        UnitRecord::Fail => Record::Fail { tid },
        UnitRecord::RetryOut => retry(Way::Outgoing, tid),
        UnitRecord::RetryIn => retry(Way::Incoming, tid),
        UnitRecord::Lost => mark(Mark::Cpicerr, tid),
        UnitRecord::Refused => mark(Mark::Sysfail, tid),
        _ => Record::Forget { tid },
    }
}

fn retry(way: Way, tid: Tid) -> Record {
    Record::Retry { way, tid }
}

fn mark(cause: Mark, tid: Tid) -> Record {
    Record::Mark { tid, cause }
}

/// A Stop or a Start of a queue.
pub(crate) fn switch(stops: bool, way: Way, destination: u8, name: QueueName) -> Record {
    if stops {
        Record::Stop {
            way,
            destination,
            name,
        }
    } else {
        Record::Start {
            way,
            destination,
            name,
        }
    }
}

/// A Genesis: its system, and `says` with a word that is its text; without it the text is empty.
fn read_genesis(alloc: Global, words: &mut Words) -> Result<Record, Fault> {
    let system = words.byte()?;
    let text = match words.after(b"says") {
        true => Items::from_slice(alloc, words.word())?,
        false => Items::new(alloc),
    };
    Ok(Record::Genesis { system, text })
}

fn app(number: u32) -> Record {
    Record::App {
        doc: DocNum(u64::from(number)),
    }
}

fn repost(number: u32) -> Record {
    Record::Repost {
        doc: DocNum(u64::from(number)),
    }
}

/// A Commit of no document.
pub(crate) fn no_document(alloc: Global) -> Record {
    Record::Commit {
        origin: None,
        docs: Items::new(alloc),
    }
}

/// A Put of no field.
fn put(alloc: Global) -> Record {
    Record::Put {
        kind: Items::new(alloc),
        key: Items::new(alloc),
        fields: Items::new(alloc),
    }
}

pub(crate) fn model(text: Items<u8>) -> Record {
    Record::Model { text }
}

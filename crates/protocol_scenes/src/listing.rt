//! Records, claims and ids as lines of text, and what a world holds.

use crate::listed_rules::ListedRules;
use ale_base::{Mark, OutOfMemory, QueueName, SystemNo, Tid, Way};
use case_form::Text;
use trfc_protocol::{Held, HeldKind, World};
use unit_core::Record;

/// How many records the log of each system has.
pub(crate) type Lengths = [usize; SystemNo::MAX as usize];

/// No records.
pub(crate) const NO_LENGTHS: Lengths = [0; SystemNo::MAX as usize];

pub(crate) fn lengths_of(world: &World<ListedRules>) -> Lengths {
    let mut lengths = NO_LENGTHS;
    for (place, state) in world.systems.iter().enumerate() {
        if place < lengths.len() {
            lengths[place] = state.log.len();
        }
    }
    lengths
}

/// Puts the records of each system behind these lengths, then the claims, and then the systems that are down.
pub(crate) fn put_world(
    text: &mut Text,
    lengths: &Lengths,
    world: &World<ListedRules>,
) -> Result<(), OutOfMemory> {
    for (place, state) in world.systems.iter().enumerate() {
        let length = lengths.get(place).copied().unwrap_or(0);
        put_log(text, place, state.log.as_slice(), length)?;
    }
    put_claims(text, world.claims.as_slice())?;
    for (place, state) in world.systems.iter().enumerate() {
        if !state.up {
            put_down(text, place, &state.rest)?;
        }
    }
    Ok(())
}

/// Puts the records of the system at a place behind the first ones, a line each.
fn put_log(text: &mut Text, place: usize, log: &[Record], first: usize) -> Result<(), OutOfMemory> {
    for record in log.iter().skip(first) {
        put_system(text, place)?;
        put_record(text, record)?;
        text.end_line()?;
    }
    Ok(())
}

/// Puts the number of the system at a place, with a colon.
pub(crate) fn put_system(text: &mut Text, place: usize) -> Result<(), OutOfMemory> {
    text.put_number((place as u64).saturating_add(1))?;
    text.put(b": ")
}

/// Puts that a system is down, and the record that it may find.
fn put_down(text: &mut Text, place: usize, rest: &Option<Record>) -> Result<(), OutOfMemory> {
    put_system(text, place)?;
    text.put(b"down")?;
    if let Some(found) = rest {
        text.put(b", may find ")?;
        put_record(text, found)?;
    }
    text.end_line()
}

/// Puts a line for each claim, or that there is none.
fn put_claims(text: &mut Text, claims: &[Held]) -> Result<(), OutOfMemory> {
    if claims.is_empty() {
        return text.put_line(b"no claim");
    }
    for held in claims {
        put_claim(text, held)?;
    }
    Ok(())
}

/// Puts a claim: its number, its kind, its unit and its system.
fn put_claim(text: &mut Text, held: &Held) -> Result<(), OutOfMemory> {
    put_numbered(text, b"claim", held.number)?;
    match held.kind {
        HeldKind::Out => put_of_unit(text, b" out", held.tid)?,
        HeldKind::In => put_of_unit(text, b" in", held.tid)?,
        HeldKind::Direct => put_of_unit(text, b" direct", held.tid)?,
    }
    put_numbered(text, b" at", u64::from(held.system.get()))?;
    text.end_line()
}

/// Puts a name, and the id of a unit: its system, a dot and its number.
pub(crate) fn put_of_unit(text: &mut Text, name: &[u8], tid: Tid) -> Result<(), OutOfMemory> {
    put_numbered(text, name, u64::from(tid.system().get()))?;
    text.put(b".")?;
    text.put_number(u64::from(tid.unit()))
}

/// Puts a name and a number.
pub(crate) fn put_numbered(text: &mut Text, name: &[u8], number: u64) -> Result<(), OutOfMemory> {
    text.put(name)?;
    text.put(b" ")?;
    text.put_number(number)
}

/// Puts a record. No log of a scene has one of the kinds that are not named here.
fn put_record(text: &mut Text, record: &Record) -> Result<(), OutOfMemory> {
    match record {
        Record::Genesis { system, .. } => put_numbered(text, b"Genesis", u64::from(*system)),
        Record::Commit { .. } => text.put(b"Commit"),
        Record::Mark { tid, cause } => put_mark(text, *tid, *cause),
        Record::Done { tid } => put_of_unit(text, b"Done", *tid),
        Record::Ended { tid } => put_of_unit(text, b"Ended", *tid),
        Record::Accept { unit } => put_of_unit(text, b"Accept", unit.tid),
        Record::Execute { tid } => put_of_unit(text, b"Execute", *tid),
        Record::Direct { unit } => put_of_unit(text, b"Direct", unit.tid),
        Record::Fail { tid } => put_of_unit(text, b"Fail", *tid),
        Record::Forget { tid } => put_of_unit(text, b"Forget", *tid),
        Record::Stop {
            way,
            destination,
            name,
        } => put_queue(text, b"Stop", *way, *destination, name),
        Record::Start {
            way,
            destination,
            name,
        } => put_queue(text, b"Start", *way, *destination, name),
        Record::Retry { way, tid } => put_retry(text, *way, *tid),
        Record::Model { text: own } => put_model(text, own.as_slice()),
        _ => text.put(b"another record"),
    }
}

fn put_mark(text: &mut Text, tid: Tid, cause: Mark) -> Result<(), OutOfMemory> {
    put_of_unit(text, b"Mark", tid)?;
    match cause {
        Mark::Cpicerr => text.put(b" CPICERR"),
        Mark::Sysfail => text.put(b" SYSFAIL"),
    }
}

fn put_way(text: &mut Text, way: Way) -> Result<(), OutOfMemory> {
    match way {
        Way::Outgoing => text.put(b" outgoing"),
        Way::Incoming => text.put(b" incoming"),
    }
}

fn put_retry(text: &mut Text, way: Way, tid: Tid) -> Result<(), OutOfMemory> {
    text.put(b"Retry")?;
    put_way(text, way)?;
    put_of_unit(text, b"", tid)
}

fn put_queue(
    text: &mut Text,
    word: &[u8],
    way: Way,
    destination: u8,
    name: &QueueName,
) -> Result<(), OutOfMemory> {
    text.put(word)?;
    put_way(text, way)?;
    put_numbered(text, b"", u64::from(destination))?;
    text.put_word(name.bytes())
}

fn put_model(text: &mut Text, own: &[u8]) -> Result<(), OutOfMemory> {
    text.put(b"Model")?;
    text.put_word(own)
}

//! Entries as the cases tell them.

use ale_base::{FieldValue, Items, Mark, OutOfMemory, QueueName, Tid, Way};
use case_form::Text;
use unit_codec::Entry;
use unit_core::{AleUnit, RawUnitDoc, Record};

/// Puts the name of a record and its fields in one line, of a document the names and data of its segments; and the moment
/// of the entry in another, if it has one.
pub(crate) fn put_entry(text: &mut Text, entry: &Entry) -> Result<(), OutOfMemory> {
    put_record(text, &entry.what)?;
    text.end_line()?;
    match entry.moment {
        Some(moment) => {
            text.put(b"at ")?;
            text.put_number(moment)?;
            text.end_line()
        }
        None => Ok(()),
    }
}

fn put_record(text: &mut Text, what: &Record) -> Result<(), OutOfMemory> {
    match what {
        Record::Genesis {
            system,
            text: model,
        } => {
            put_numbered(text, b"Genesis", u64::from(*system))?;
            text.put_word(model.as_slice())
        }
        Record::Commit { origin, docs } => put_commit(text, origin, docs),
        Record::Dispatch => text.put(b"Dispatch"),
        Record::Mark { tid, cause } => put_mark(text, *tid, *cause),
        Record::Done { tid } => put_with_tid(text, b"Done", *tid),
        Record::Ended { tid } => put_with_tid(text, b"Ended", *tid),
        Record::Execute { tid } => put_with_tid(text, b"Execute", *tid),
        Record::Fail { tid } => put_with_tid(text, b"Fail", *tid),
        Record::Forget { tid } => put_with_tid(text, b"Forget", *tid),
        Record::Accept { unit } => put_unit(text, b"Accept", unit),
        Record::Direct { unit } => put_unit(text, b"Direct", unit),
        Record::Stop {
            way,
            destination,
            name,
        } => put_queue(text, b"Stop", *way, *destination, name),
        Record::Start {
            way,
            destination,
            name,
        } => put_queue(text, b"Start", *way, *destination, name),
        Record::Retry { way, tid } => {
            text.put(b"Retry")?;
            put_with_tid(text, name_of(*way), *tid)
        }
        Record::Put { kind, key, fields } => put_change(text, kind, key, fields),
        Record::App { doc } => put_numbered(text, b"App", doc.0),
        Record::Repost { doc } => put_numbered(text, b"Repost", doc.0),
        Record::Model { text: model } => {
            text.put(b"Model")?;
            text.put_word(model.as_slice())
        }
    }
}

fn put_numbered(text: &mut Text, name: &[u8], number: u64) -> Result<(), OutOfMemory> {
    text.put(name)?;
    text.put(b" ")?;
    text.put_number(number)
}

fn put_with_tid(text: &mut Text, name: &[u8], tid: Tid) -> Result<(), OutOfMemory> {
    text.put(name)?;
    text.put_word(&tid.bytes())
}

fn put_commit(
    text: &mut Text,
    origin: &Option<Items<u8>>,
    docs: &Items<RawUnitDoc>,
) -> Result<(), OutOfMemory> {
    text.put(b"Commit")?;
    if let Some(name) = origin {
        text.put(b" of")?;
        text.put_word(name.as_slice())?;
    }
    put_docs(text, docs)
}

fn put_mark(text: &mut Text, tid: Tid, cause: Mark) -> Result<(), OutOfMemory> {
    put_with_tid(text, b"Mark", tid)?;
    match cause {
        Mark::Cpicerr => text.put(b" CPICERR"),
        Mark::Sysfail => text.put(b" SYSFAIL"),
    }
}

fn put_unit(text: &mut Text, name: &[u8], unit: &AleUnit) -> Result<(), OutOfMemory> {
    put_with_tid(text, name, unit.tid)?;
    put_numbered(text, b" from", u64::from(unit.sender.get()))?;
    put_numbered(text, b" to", u64::from(unit.receiver.get()))?;
    text.put_word(unit.function.trimmed())?;
    put_names(text, Way::Outgoing, &unit.outq)?;
    put_names(text, Way::Incoming, &unit.inq)?;
    put_docs(text, &unit.docs)
}

fn put_names(text: &mut Text, way: Way, names: &Items<QueueName>) -> Result<(), OutOfMemory> {
    text.put(name_of(way))?;
    for name in names {
        text.put_word(name.bytes())?;
    }
    Ok(())
}

fn put_docs(text: &mut Text, docs: &Items<RawUnitDoc>) -> Result<(), OutOfMemory> {
    for doc in docs {
        text.put(b" document")?;
        put_segments(text, doc)?;
    }
    Ok(())
}

fn put_segments(text: &mut Text, doc: &RawUnitDoc) -> Result<(), OutOfMemory> {
    for segment in &doc.segments {
        text.put_word(segment.segnam.trimmed())?;
        text.put(b"=")?;
        text.put(segment.sdata.as_slice())?;
    }
    Ok(())
}

fn put_queue(
    text: &mut Text,
    record: &[u8],
    way: Way,
    destination: u8,
    name: &QueueName,
) -> Result<(), OutOfMemory> {
    text.put(record)?;
    put_numbered(text, name_of(way), u64::from(destination))?;
    text.put_word(name.bytes())
}

fn put_change(
    text: &mut Text,
    kind: &Items<u8>,
    key: &Items<u8>,
    fields: &Items<FieldValue>,
) -> Result<(), OutOfMemory> {
    text.put(b"Put")?;
    text.put_word(kind.as_slice())?;
    text.put_word(key.as_slice())?;
    for field in fields {
        text.put_word(field.field.as_slice())?;
        text.put(b"=")?;
        text.put(field.value.as_slice())?;
    }
    Ok(())
}

/// The word of a direction, behind a blank.
fn name_of(way: Way) -> &'static [u8] {
    match way {
        Way::Outgoing => b" out",
        Way::Incoming => b" in",
    }
}

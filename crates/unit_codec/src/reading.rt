//! Records, each by its byte and its fields.

ghost use Rattle.std.specs.Prelude.{◌≡◌, Bool, List};
ghost use Rattle.unit_core.specs.declared.records.Record.TheVariants.{Genesis, Commit, Dispatch, Mark, Done, Ended, Accept, Execute, Direct, Fail, Forget, Stop, Start, Retry, Put, App, Repost, Model};
ghost use Rattle.unit_codec.specs.Reading.{Takes};
ghost use Rattle.unit_codec.specs.Records.{genesis, commit, mark, stop, retry, put, fields_at, record_at, a_record};
ghost use Rattle.unit_codec.specs.Entries.{an_entry};

use crate::Entry;
use crate::fault::FieldFault;
use crate::unread::Unread;
use std::alloc::Global;
use unit_core::Record;

/// The byte before a moment, which no record begins with.
pub(crate) const MOMENT_BYTE: u8 = 0x13;

/// A record from the front of the bytes.
#[tactic(auto, unfolding(crate::specs::Records::a_record))]
pub(crate) fn take_record(alloc: Global, from: &mut Unread<'_>) -> Result<Record, FieldFault>
    ensures { Takes (λ x. x) result from.new (a_record.read from.old) }
{
    let left = from.left();
    let tag = from.byte()?;
    take_fields(alloc, from, left, tag)
}

/// An entry from the front of the bytes.
#[tactic(auto, unfolding(crate::specs::Entries::an_entry))]
pub(crate) fn take_entry(alloc: Global, from: &mut Unread<'_>) -> Result<Entry, FieldFault>
    ensures { Takes (λ x. x) result from.new (an_entry.read from.old) }
{
    let moment = if from.skips(MOMENT_BYTE) {
        Some(from.eight_bytes()?)
    } else {
        None
    };
    let what = take_record(alloc, from)?;
    Ok(Entry { moment, what })
}

/// The fields behind the byte of a record.
#[tactic(auto, unfolding(crate::specs::Records::nothing, crate::specs::Kind::plain))]
fn take_fields(
    alloc: Global,
    from: &mut Unread<'_>,
    left: usize,
    tag: u8,
) -> Result<Record, FieldFault>
    ensures { Takes (λ x. x) result from.new (record_at left (tag, from.old)) }
{
    match tag {
        0x01 => take_genesis(alloc, from),
        0x02 => take_commit(alloc, from),
        0x03 => Ok(Record::Dispatch),
        0x04 => take_mark(from),
        0x05 => Ok(Record::Done { tid: from.tid()? }),
        0x06 => Ok(Record::Ended { tid: from.tid()? }),
        0x07 => Ok(Record::Accept {
            unit: from.unit(alloc)?,
        }),
        0x08 => Ok(Record::Execute { tid: from.tid()? }),
        0x09 => Ok(Record::Direct {
            unit: from.unit(alloc)?,
        }),
        0x0a => Ok(Record::Fail { tid: from.tid()? }),
        0x0b => Ok(Record::Forget { tid: from.tid()? }),
        0x0c => take_stop(from),
        0x0d => take_start(from),
        0x0e => take_retry(from),
        0x0f => take_put(alloc, from),
        0x10 => Ok(Record::App {
            doc: from.doc_number()?,
        }),
        0x11 => Ok(Record::Repost {
            doc: from.doc_number()?,
        }),
        0x12 => Ok(Record::Model {
            text: from.text(alloc)?,
        }),
        _ => Err(FieldFault::Bad(left)),
    }
}

#[tactic(auto, unfolding(crate::specs::Records::genesis))]
fn take_genesis(alloc: Global, from: &mut Unread<'_>) -> Result<Record, FieldFault>
    ensures { Takes (λ x. x) result from.new (fields_at genesis (λ p. Genesis p.0 p.1) from.old) }
{
    let system = from.byte()?;
    let text = from.text(alloc)?;
    Ok(Record::Genesis { system, text })
}

#[tactic(auto, unfolding(crate::specs::Records::commit))]
fn take_commit(alloc: Global, from: &mut Unread<'_>) -> Result<Record, FieldFault>
    ensures { Takes (λ x. x) result from.new (fields_at commit (λ p. Commit p.0 p.1) from.old) }
{
    let origin = from.origin(alloc)?;
    let docs = from.documents(alloc)?;
    Ok(Record::Commit { origin, docs })
}

#[tactic(auto, unfolding(crate::specs::Records::mark))]
fn take_mark(from: &mut Unread<'_>) -> Result<Record, FieldFault>
    ensures { Takes (λ x. x) result from.new (fields_at mark (λ p. Mark p.0 p.1) from.old) }
{
    let tid = from.tid()?;
    let cause = from.cause()?;
    Ok(Record::Mark { tid, cause })
}

#[tactic(auto, unfolding(crate::specs::Records::stop))]
fn take_stop(from: &mut Unread<'_>) -> Result<Record, FieldFault>
    ensures { Takes (λ x. x) result from.new (fields_at stop (λ p. Stop p.0 p.1.0 p.1.1) from.old) }
{
    let way = from.way()?;
    let destination = from.destination(way)?;
    let name = from.queue_name()?;
    Ok(Record::Stop {
        way,
        destination,
        name,
    })
}

#[tactic(auto, unfolding(crate::specs::Records::stop))]
fn take_start(from: &mut Unread<'_>) -> Result<Record, FieldFault>
    ensures { Takes (λ x. x) result from.new (fields_at stop (λ p. Start p.0 p.1.0 p.1.1) from.old) }
{
    let way = from.way()?;
    let destination = from.destination(way)?;
    let name = from.queue_name()?;
    Ok(Record::Start {
        way,
        destination,
        name,
    })
}

#[tactic(auto, unfolding(crate::specs::Records::retry))]
fn take_retry(from: &mut Unread<'_>) -> Result<Record, FieldFault>
    ensures { Takes (λ x. x) result from.new (fields_at retry (λ p. Retry p.0 p.1) from.old) }
{
    let way = from.way()?;
    let tid = from.tid()?;
    Ok(Record::Retry { way, tid })
}

#[tactic(auto, unfolding(crate::specs::Records::put))]
fn take_put(alloc: Global, from: &mut Unread<'_>) -> Result<Record, FieldFault>
    ensures { Takes (λ x. x) result from.new (fields_at put (λ p. Put p.0 p.1.0 p.1.1) from.old) }
{
    let kind = from.name(alloc)?;
    let key = from.text(alloc)?;
    let fields = from.field_values(alloc)?;
    Ok(Record::Put { kind, key, fields })
}

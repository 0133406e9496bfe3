//! Records and entries, appended to bytes.

ghost use Rattle.std.specs.Prelude.{◌≡◌, OnOk, IfSome};
ghost use Rattle.std.specs.List.{AllByRecursion};
ghost use Rattle.unit_codec.specs.Kind.{Puts};
ghost use Rattle.unit_codec.specs.Condition.{IsWritable, HasDestination, IsName, IsText, AreCounted, AreDocuments, IsFieldValue};
ghost use Rattle.unit_codec.specs.Records.{spelled_as, PutsFields, genesis, commit, mark, stop, retry, put, a_record};
ghost use Rattle.unit_codec.specs.Entries.{entry_with, an_entry};

use crate::documents::{put_documents, put_field_values};
use crate::put::{
    put_byte, put_cause, put_destination, put_doc_number, put_eight_bytes, put_name, put_origin,
    put_queue_name, put_text, put_tid, put_way,
};
use crate::reading::MOMENT_BYTE;
use crate::units::put_unit;
use ale_base::{FieldValue, Items, Mark, OutOfMemory, QueueName, Tid, Way};
use unit_core::{RawUnitDoc, Record};

/// Appends the entry of a record, with this moment or without one.
#[tactic(auto, unfolding(crate::specs::Entries::an_entry))]
pub(crate) fn put_entry(
    into: &mut Vec<u8>,
    moment: Option<u64>,
    what: &Record,
) -> Result<(), OutOfMemory>
    requires { IsWritable what.now }
    ensures { OnOk result (Puts an_entry (entry_with moment what.now) into.old.items into.new.items) }
{
    if let Some(moment) = moment {
        put_byte(into, MOMENT_BYTE)?;
        put_eight_bytes(into, moment)?;
    }
    put_record(into, what)
}

/// Appends a record: its byte, and its fields.
#[tactic(auto, unfolding(crate::specs::Records::a_record))]
pub(crate) fn put_record(into: &mut Vec<u8>, what: &Record) -> Result<(), OutOfMemory>
    requires { IsWritable what.now }
    ensures { OnOk result (Puts a_record what.now into.old.items into.new.items) }
{
    put_byte(into, tag_of(what))?;
    put_fields(into, what)
}

/// The byte of a record.
fn tag_of(what: &Record) -> u8
    ensures { result ≡ (spelled_as what.now).tag }
{
    match what {
        Record::Genesis { .. } => 0x01,
        Record::Commit { .. } => 0x02,
        Record::Dispatch => 0x03,
        Record::Mark { .. } => 0x04,
        Record::Done { .. } => 0x05,
        Record::Ended { .. } => 0x06,
        Record::Accept { .. } => 0x07,
        Record::Execute { .. } => 0x08,
        Record::Direct { .. } => 0x09,
        Record::Fail { .. } => 0x0a,
        Record::Forget { .. } => 0x0b,
        Record::Stop { .. } => 0x0c,
        Record::Start { .. } => 0x0d,
        Record::Retry { .. } => 0x0e,
        Record::Put { .. } => 0x0f,
        Record::App { .. } => 0x10,
        Record::Repost { .. } => 0x11,
        Record::Model { .. } => 0x12,
    }
}

/// Appends the fields of a record.
#[tactic(auto, unfolding(crate::specs::Records::nothing))]
fn put_fields(into: &mut Vec<u8>, what: &Record) -> Result<(), OutOfMemory>
    requires { IsWritable what.now }
    ensures { OnOk result (PutsFields what.now into.old.items into.new.items) }
{
    match what {
        Record::Genesis { system, text } => put_genesis(into, *system, text),
        Record::Commit { origin, docs } => put_commit(into, origin, docs),
        Record::Dispatch => Ok(()),
        Record::Mark { tid, cause } => put_mark(into, *tid, *cause),
        Record::Done { tid }
        | Record::Ended { tid }
        | Record::Execute { tid }
        | Record::Fail { tid }
        | Record::Forget { tid } => put_tid(into, *tid),
        Record::Accept { unit } | Record::Direct { unit } => put_unit(into, unit),
        Record::Stop {
            way,
            destination,
            name,
        }
        | Record::Start {
            way,
            destination,
            name,
        } => put_stop(into, *way, *destination, name),
        Record::Retry { way, tid } => put_retry(into, *way, *tid),
        Record::Put { kind, key, fields } => put_change(into, kind, key, fields),
        Record::App { doc } | Record::Repost { doc } => put_doc_number(into, *doc),
        Record::Model { text } => put_text(into, text),
    }
}

#[tactic(auto, unfolding(crate::specs::Records::genesis))]
fn put_genesis(into: &mut Vec<u8>, system: u8, model: &Items<u8>) -> Result<(), OutOfMemory>
    requires { IsText model.now }
    ensures { OnOk result (Puts genesis (system, model.now) into.old.items into.new.items) }
{
    put_byte(into, system)?;
    put_text(into, model)
}

#[tactic(auto, unfolding(crate::specs::Records::commit))]
fn put_commit(
    into: &mut Vec<u8>,
    origin: &Option<Items<u8>>,
    docs: &Items<RawUnitDoc>,
) -> Result<(), OutOfMemory>
    requires origin { IfSome origin.now IsName }
    requires docs { AreDocuments docs.now }
    ensures { OnOk result (Puts commit (origin.now, docs.now) into.old.items into.new.items) }
{
    put_origin(into, origin)?;
    put_documents(into, docs)
}

#[tactic(auto, unfolding(crate::specs::Records::mark))]
fn put_mark(into: &mut Vec<u8>, id: Tid, why: Mark) -> Result<(), OutOfMemory>
    ensures { OnOk result (Puts mark (id, why) into.old.items into.new.items) }
{
    put_tid(into, id)?;
    put_cause(into, why)
}

#[tactic(auto, unfolding(crate::specs::Records::stop))]
fn put_stop(into: &mut Vec<u8>, direction: Way, to: u8, name: &QueueName) -> Result<(), OutOfMemory>
    requires { HasDestination direction to }
    ensures { OnOk result (Puts stop (direction, (to, name.now)) into.old.items into.new.items) }
{
    put_way(into, direction)?;
    put_destination(into, direction, to)?;
    put_queue_name(into, name)
}

#[tactic(auto, unfolding(crate::specs::Records::retry))]
fn put_retry(into: &mut Vec<u8>, direction: Way, id: Tid) -> Result<(), OutOfMemory>
    ensures { OnOk result (Puts retry (direction, id) into.old.items into.new.items) }
{
    put_way(into, direction)?;
    put_tid(into, id)
}

#[tactic(auto, unfolding(crate::specs::Records::put))]
fn put_change(
    into: &mut Vec<u8>,
    kind: &Items<u8>,
    key: &Items<u8>,
    fields: &Items<FieldValue>,
) -> Result<(), OutOfMemory>
    requires kind { IsName kind.now }
    requires key { IsText key.now }
    requires counted { AreCounted fields.now }
    requires each { AllByRecursion IsFieldValue fields.now }
    ensures { OnOk result (Puts put (kind.now, (key.now, fields.now)) into.old.items into.new.items) }
{
    put_name(into, kind)?;
    put_text(into, key)?;
    put_field_values(into, fields)
}

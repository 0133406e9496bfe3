//! How a document is read by its message type.

ghost use Rattle.std.specs.Prelude.{◌≡◌, ◌<◌, IfOk, Some, length};
ghost use Rattle.segment_defs.specs.IdocType.{IsIdocType};
ghost use Rattle.dist_model.specs.Model.{IsModel, entries_for};
ghost use Rattle.idoc_reading.specs.Reading.{IsReadingOf, read_as, read_by_type, reading_in};

use ale_base::OutOfMemory;
use dist_model::{Lists, MessageNo, Model};
use idoc_record::{Control, ControlField, Data};
use idoc_tree::{Doc, SyntaxFault, build};
use segment_defs::IdocType;
use std::alloc::Global;

/// How a document is read by its message type.
#[derive(Drop)]
pub enum Reading {
    /// MESTYP stands for no message type.
    Unknown,
    /// The data records are no document of this message type, and this is their first fault.
    Faulty(MessageNo, SyntaxFault),
    /// It is this document of this message type.
    Read(MessageNo, Doc),
}

/// A document read by its message type: MESTYP stands for the message type, where the name of a reduced one stands for the one that is
/// reduced, and the data records make a document by the entries for it. IDOCTYP is not looked at.
pub fn read_by_type(
    alloc: Global,
    model: &Model,
    control: &Control,
    records: &[Data],
) -> Result<Reading, OutOfMemory>
    ensures read { IfOk result (λ reading. reading_in reading ≡ read_by_type model.now control.now records.now) }
    ensures known { IfOk result (IsReadingOf model.now control.now records.now) }
{
    match model.message(control.get(ControlField::Mestyp)) {
        None => Ok(Reading::Unknown),
        Some(message) => read_as(alloc, model.as_lists(), message, control, records),
    }
}

/// A document read as one of a message type.
fn read_as(
    alloc: Global,
    lists: &Lists,
    message: MessageNo,
    control: &Control,
    records: &[Data],
) -> Result<Reading, OutOfMemory>
    requires kept { IsModel lists.now }
    requires known { message < length lists.now.messages }
    ensures read { IfOk result (λ reading. reading_in reading ≡ Some (read_as lists.now control.now records.now message)) }
    ensures known { IfOk result (IsReadingOf lists.now control.now records.now) }
{
    let ty = type_for(lists, message, control);
    let copy = Control::clone(control)?;
    match build(alloc, &lists.definitions, ty, copy, records) {
        Ok(doc) => Ok(Reading::Read(message, doc)),
        Err(SyntaxFault::OutOfMemory) => Err(OutOfMemory),
        Err(fault) => Ok(Reading::Faulty(message, fault)),
    }
}

/// The IDoc type by which a document of a message type is read that has this control record. It takes no memory.
pub fn type_for<'l>(lists: &'l Lists, message: MessageNo, control: &Control) -> &'l IdocType
    requires model { IsModel lists.now }
    requires known { message < length lists.now.messages }
    ensures entries { result.now.segments ≡ entries_for lists.now message control.now }
    ensures kept { IsIdocType lists.now.definitions result.now }
{
    let _ = control;
    let number = message.0;
    let place = lists.messages[usize::from(number)].idoctype;
    &lists.types[usize::from(place)]
}

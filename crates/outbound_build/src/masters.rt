//! Masters of a Commit: documents that are read by the IDoc types of their message types.

ghost use Rattle.std.specs.Prelude.{◌≡◌, IfOk, IfSome, Ok};
ghost use Rattle.std.specs.Option.{option_map};
ghost use Rattle.idoc_tree.specs.Nodes.{forest_of};
ghost use Rattle.outbound_build.specs.Added.{master_of, master_read, may_be_of};
ghost use Rattle.outbound_build.specs.steps.Reading.{IsRead, master_in};

use ale_base::OutOfMemory;
use dist_model::{Lists, MessageNo, Model, idoc_type_name_of};
use idoc_reading::{Reading, read_by_type};
use idoc_record::{Control, ControlField};
use idoc_tree::Doc;
use std::alloc::Global;
use unit_core::RawUnitDoc;

/// A master that was read: its message type, and the document.
#[derive(Drop)]
pub(crate) struct MasterDoc {
    /// The message type.
    pub(crate) message: MessageNo,
    /// The document.
    pub(crate) doc: Doc,
}

/// A document as a master. None where it is not read by its message type, or IDOCTYP names another IDoc type.
pub(crate) fn master_of(
    alloc: Global,
    model: &Model,
    doc: &RawUnitDoc,
) -> Result<Option<MasterDoc>, OutOfMemory>
    ensures read { IfOk result (λ found. option_map master_in found ≡ master_of model.now doc.now) }
    ensures kept { IfOk result (λ found. IfSome found (IsRead model.now)) }
{
    let reading = read_by_type(alloc, model, &doc.control, doc.segments.as_slice())?;
    match reading {
        Reading::Read(message, doc) => Ok(master_read(model.as_lists(), message, doc)),
        _ => Ok(None),
    }
}

/// A document that was read by a message type, as a master.
fn master_read(lists: &Lists, message: MessageNo, doc: Doc) -> Option<MasterDoc>
    ensures read { option_map master_in result
        ≡ master_read lists.now doc.control (record { message = message; made = Ok (forest_of doc.forest.items) }) }
    ensures same { IfSome result (λ master. (master.message ≡ message) × (master.doc ≡ doc)) }
{
    if may_be_of(&doc.control, idoc_type_name_of(lists, message)) {
        return Some(MasterDoc { message, doc });
    }
    None
}

/// Whether a document with this control record may be one of the IDoc type of a name: IDOCTYP is blank or names it. It takes no
/// memory.
pub fn may_be_of(control: &Control, name: &[u8]) -> bool
    ensures { result ≡ may_be_of control.now name.now }
{
    let idoctyp = control.get(ControlField::Idoctyp);
    idoctyp == b"".as_slice() || idoctyp == name
}

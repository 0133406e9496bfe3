//! What a received document is to make of an object.

ghost use Rattle.std.specs.Prelude.{◌≡◌, ◌<◌, ◌==◌, ◌||◌, not, IfOk, IfSome, length, map, Ok, Some};
ghost use Rattle.segment_defs.specs.Definitions.{AreDefinitions};
ghost use Rattle.segment_defs.specs.Version.{field_text, text_in};
ghost use Rattle.dist_model.specs.Field.{all_fields};
ghost use Rattle.dist_model.specs.Model.{IsModel};
ghost use Rattle.idoc_tree.specs.Forest.{AllNodes};
ghost use Rattle.idoc_tree.specs.Lines.{IsNode};
ghost use Rattle.idoc_tree.specs.Nodes.{forest_of, tree_of};
ghost use Rattle.change_pointers.specs.Noted.{name_at};
ghost use Rattle.inbound_post.specs.Laws.{IsSaidBy};
ghost use Rattle.inbound_post.specs.Reading.{is_no_data, key_text, posted_fields, posting, posting_made, posting_of, posting_read, posting_with};

use ale_base::{FieldValue, Items, OutOfMemory};
use change_pointers::name_at;
use dist_model::{Kind, Lists, Message, MessageNo, Model, PostingMode, all_fields};
use idoc_reading::{Reading, read_by_type};
use idoc_tree::{Doc, Node};
use object_store::Posting;
use segment_defs::{Field, Version};
use std::alloc::Global;
use unit_core::RawUnitDoc;

/// The posting of a document, whatever profile there is for it: what its root segment, by its own definition, is to make of an
/// object. The key is empty where its field is blank or no data; the fields are the others of the definition that are not no data,
/// which is `/` alone. None exactly where MESTYP stands for no message type, or the document is not read by the IDoc type of that.
pub fn posting(
    alloc: Global,
    model: &Model,
    doc: &RawUnitDoc,
) -> Result<Option<Posting>, OutOfMemory>
    ensures made { IfOk result (λ made. made ≡ posting model.now doc.now) }
    ensures said { IfOk result (λ made. IfSome made (IsSaidBy model.now doc.now)) }
{
    // The rules of a model say which message type a name stands for.
    let _rules = model.as_lists();
    let made = read_posting(alloc, model, doc)?;
    Ok(made)
}

/// The posting of a document, as it is read by its message type.
fn read_posting(
    alloc: Global,
    model: &Model,
    doc: &RawUnitDoc,
) -> Result<Option<Posting>, OutOfMemory>
    ensures { IfOk result (λ made. made ≡ posting model.now doc.now) }
{
    let reading = read_by_type(alloc, model, &doc.control, doc.segments.as_slice())?;
    match reading {
        Reading::Read(message, read) => root_posting(alloc, model.as_lists(), message, &read),
        _ => Ok(None),
    }
}

/// The posting of a document that was read by a message type.
fn root_posting(
    alloc: Global,
    model: &Lists,
    message: MessageNo,
    read: &Doc,
) -> Result<Option<Posting>, OutOfMemory>
    requires model { IsModel model.now }
    requires nodes { AllNodes (IsNode model.now.definitions) (forest_of read.now.forest.items) }
    ensures { IfOk result (λ made. made
        ≡ posting_read model.now (record { message = message; made = Ok (forest_of read.now.forest.items) })) }
{
    match read.forest.first() {
        None => Ok(None),
        Some(root) => posting_of(alloc, model, message, root),
    }
}

/// The posting of the root segment of a document of a message type, by the number of that.
fn posting_of(
    alloc: Global,
    model: &Lists,
    message: MessageNo,
    root: &Node,
) -> Result<Option<Posting>, OutOfMemory>
    requires model { IsModel model.now }
    requires node { IsNode model.now.definitions (tree_of root.now).root }
    ensures { IfOk result (λ made. made ≡ posting_of model.now message (tree_of root.now).root) }
{
    let number = message.0;
    match model.messages.get(usize::from(number)) {
        None => Ok(None),
        Some(message) => posting_made(alloc, model, message, root),
    }
}

/// The posting of the root segment of a document of a message type.
fn posting_made(
    alloc: Global,
    model: &Lists,
    message: &Message,
    root: &Node,
) -> Result<Option<Posting>, OutOfMemory>
    requires model { IsModel model.now }
    requires node { IsNode model.now.definitions (tree_of root.now).root }
    ensures { IfOk result (λ made. made ≡ posting_made model.now message.now (tree_of root.now).root) }
{
    match model.kinds.get(usize::from(message.kind)) {
        None => Ok(None),
        Some(kind) => {
            let definition = model.definitions.version(root.segment, root.version);
            let made = posting_with(
                alloc,
                model,
                message,
                kind,
                root.sdata.as_slice(),
                definition,
            )?;
            Ok(Some(made))
        }
    }
}

/// The posting of data by their definition.
fn posting_with(
    alloc: Global,
    model: &Lists,
    message: &Message,
    kind: &Kind,
    sdata: &[u8],
    definition: &Version,
) -> Result<Posting, OutOfMemory>
    requires definitions { AreDefinitions model.now.definitions }
    requires exists { kind.now.segment < length model.now.definitions.types }
    ensures { IfOk result (λ made. made ≡ posting_with model.now message.now kind.now sdata.now definition.now) }
{
    let fields = definition.fields.as_slice();
    let own = all_fields(&model.definitions, kind.segment);
    Ok(Posting {
        kind: Items::from_slice(alloc, kind.name.as_slice())?,
        key: Items::from_slice(alloc, key_text(text_in(fields, sdata, kind.key)))?,
        fields: posted_fields(alloc, kind.key, sdata, fields)?,
        required: names_at(alloc, own, message.required.as_slice())?,
        insert: matches!(message.posting, PostingMode::Insert),
    })
}

/// The text of the field at a place.
fn text_in<'d>(fields: &[Field], sdata: &'d [u8], place: u16) -> &'d [u8]
    ensures { result.now ≡ text_in fields.now sdata.now place }
{
    match fields.get(usize::from(place)) {
        None => &[],
        Some(field) => field.text(sdata),
    }
}

/// The text of the key; no bytes where it is no data.
fn key_text(text: &[u8]) -> &[u8]
    ensures { result.now ≡ key_text text.now }
{
    if is_no_data(text) { &[] } else { text }
}

/// Whether a text is no data.
fn is_no_data(text: &[u8]) -> bool
    ensures { result ≡ is_no_data text.now }
{
    text == b"/".as_slice()
}

/// The fields that are posted, each with its text.
fn posted_fields(
    alloc: Global,
    key: u16,
    sdata: &[u8],
    fields: &[Field],
) -> Result<Items<FieldValue>, OutOfMemory>
    ensures { IfOk result (λ posted. posted ≡ posted_fields key 0 sdata.now fields.now) }
{
    let mut posted = Items::new(alloc);
    for (place, field) in fields.iter().enumerate() {
        if is_posted(key, sdata, place, field) {
            let value = value_of(alloc, sdata, field)?;
            posted.push(value)?;
        }
    }
    Ok(posted)
}

/// Whether the field at a place is posted: it is not the key, and has data.
fn is_posted(key: u16, sdata: &[u8], place: usize, field: &Field) -> bool
    ensures { result ≡ not ((place == key) || is_no_data (field_text sdata.now field.now)) }
{
    !(place == usize::from(key) || is_no_data(field.text(sdata)))
}

/// A field with its text.
fn value_of(alloc: Global, sdata: &[u8], field: &Field) -> Result<FieldValue, OutOfMemory>
    ensures { IfOk result (λ value. value ≡ record { field = field.now.name; value = field_text sdata.now field.now }) }
{
    Ok(FieldValue {
        field: Items::from_slice(alloc, field.name.as_slice())?,
        value: Items::from_slice(alloc, field.text(sdata))?,
    })
}

/// The names of the fields at some places.
fn names_at(
    alloc: Global,
    fields: &[Field],
    places: &[u16],
) -> Result<Items<Items<u8>>, OutOfMemory>
    ensures { IfOk result (λ names. names ≡ map (name_at fields.now) places.now) }
{
    let mut names = Items::new(alloc);
    for place in places {
        names.push(Items::from_slice(alloc, name_at(fields, *place))?)?;
    }
    Ok(names)
}

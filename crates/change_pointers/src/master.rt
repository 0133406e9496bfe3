//! The master document of an object.

ghost use Rattle.std.specs.Prelude.{◌≡◌, ◌≤◌, ◌<◌, [], ◌∷◌, Some, IfOk, IfSome, is_some, length, take, if◌then◌else◌};
ghost use Rattle.std.specs.Option.{option_map};
ghost use Rattle.idoc_record.specs.declared.control_field.ControlField.TheVariants.{Idoctyp, Mestyp};
ghost use Rattle.idoc_record.specs.Control.{blank_text, control_with, written_at};
ghost use Rattle.segment_defs.specs.declared.limits.TheConstants.{LONGEST_NAME};
ghost use Rattle.segment_defs.specs.Definitions.{AreDefinitions};
ghost use Rattle.segment_defs.specs.Version.{data_of};
ghost use Rattle.idoc_tree.specs.Forest.{leaf};
ghost use Rattle.idoc_tree.specs.Nodes.{forest_of};
ghost use Rattle.dist_model.specs.Model.{IsModel, entries_for};
ghost use Rattle.idoc_reading.specs.Document.{IsOfEntries};
ghost use Rattle.object_store.specs.Objects.{object_at, value_in};
ghost use Rattle.object_store.specs.Posting.{fields_of};
ghost use Rattle.change_pointers.specs.Master.{MakesDocuments, kind_of, master_control, master_in, master_segment, object_master, object_segment, object_text};

use crate::ObjectKey;
use crate::noting::value_before;
use ale_base::{Items, OutOfMemory};
use dist_model::{Kind, Lists, MessageNo, Model, all_fields};
use idoc_record::{Control, ControlField};
use idoc_tree::{Doc, Node};
use object_store::Objects;
use segment_defs::{Definitions, Field, VersionNo, without_blanks};
use std::alloc::Global;

/// The master document of an object for a message type of the model, as the object is now. Its control record names the IDoc
/// type and the message type. Its one segment has the newest definition of the kind's segment type, with the key in the key field
/// and the object's values in the others; a value that is longer than its field is cut. None exactly where the object is not
/// there.
pub fn master_of(
    alloc: Global,
    model: &Model,
    objects: &Objects,
    message: MessageNo,
    key: &ObjectKey,
) -> Result<Option<Doc>, OutOfMemory>
    requires { message < length model.now.messages }
    ensures there { IfOk result (λ master. is_some master ≡ is_some (object_at key.now.kind key.now.key objects.now)) }
    ensures control { IfOk result (λ master. IfSome master (λ doc. doc.control ≡ master_control model.now message)) }
    ensures segment { IfOk result (λ master. IfSome master (λ doc.
        Some (forest_of doc.forest.items)
        ≡ option_map leaf (master_segment model.now message key.now.key (fields_of key.now.kind key.now.key objects.now)))) }
    // As one value, of which `gathered` makes the masters of a gathering.
    ensures made { IfOk result (λ master. option_map master_in master ≡ object_master model.now message objects.now key.now) }
    // It is a document by the entries for its message type, if that is one whose objects make documents.
    ensures of_entries { MakesDocuments model.now message → IfOk result (λ master. IfSome master (λ doc.
        IsOfEntries model.now.definitions (entries_for model.now message doc.control) (forest_of doc.forest.items))) }
{
    if !objects.contains(key.kind.as_slice(), key.key.as_slice()) {
        return Ok(None);
    }
    let lists = model.as_lists();
    let forest = object_forest(alloc, lists, objects, message, key)?;
    let control = master_control(lists, message);
    Ok(Some(Doc { control, forest }))
}

/// The segment of an object for a message type, as a forest.
fn object_forest(
    alloc: Global,
    lists: &Lists,
    objects: &Objects,
    message: MessageNo,
    key: &ObjectKey,
) -> Result<Vec<Node>, OutOfMemory>
    requires kept { IsModel lists.now }
    requires known { message < length lists.now.messages }
    ensures { IfOk result (λ forest. Some (forest_of forest.items)
        ≡ option_map leaf (master_segment lists.now message key.now.key (fields_of key.now.kind key.now.key objects.now))) }
{
    let kind = kind_of(lists, message);
    let root = object_node(alloc, &lists.definitions, objects, kind, key)?;
    let mut forest = Vec::new(alloc);
    forest.push(root)?;
    Ok(forest)
}

/// The kind of the objects of a message type.
fn kind_of(lists: &Lists, message: MessageNo) -> &Kind
    requires kept { IsModel lists.now }
    requires known { message < length lists.now.messages }
    ensures { Some result.now ≡ kind_of lists.now message }
{
    let number = message.0;
    let kind = lists.messages[usize::from(number)].kind;
    &lists.kinds[usize::from(kind)]
}

/// The control record of a master of a message type.
fn master_control(lists: &Lists, message: MessageNo) -> Control
    requires kept { IsModel lists.now }
    requires known { message < length lists.now.messages }
    ensures { result ≡ master_control lists.now message }
{
    let number = message.0;
    let message = &lists.messages[usize::from(number)];
    let idoctype = &lists.types[usize::from(message.idoctype)];
    control_naming(idoctype.name.as_slice(), message.name.as_slice())
}

/// The control record that names an IDoc type and a message type; all else is blank.
fn control_naming(idoctype: &[u8], message: &[u8]) -> Control
    requires idoctype { length idoctype.now ≤ LONGEST_NAME }
    requires message { length message.now ≤ LONGEST_NAME }
    ensures { result ≡ control_with (written_at Mestyp message.now (written_at Idoctyp idoctype.now blank_text)) }
{
    let mut control = Control::blank();
    control.set(ControlField::Idoctyp, idoctype);
    control.set(ControlField::Mestyp, message);
    control
}

/// The segment of an object of a kind.
fn object_node(
    alloc: Global,
    definitions: &Definitions,
    objects: &Objects,
    kind: &Kind,
    key: &ObjectKey,
) -> Result<Node, OutOfMemory>
    requires definitions { AreDefinitions definitions.now }
    requires known { kind.now.segment < length definitions.now.types }
    ensures { IfOk result (λ node. forest_of (node ∷ [])
        ≡ leaf (object_segment definitions.now key.now.key (fields_of key.now.kind key.now.key objects.now) kind.now)) }
{
    let segment = kind.segment.0;
    let versions = definitions.types[usize::from(segment)].versions.len();
    let fields = all_fields(definitions, kind.segment);
    Ok(Node {
        segment: kind.segment,
        version: VersionNo((versions - 1) as u8),
        sdata: object_data(alloc, fields, objects, key, kind.key)?,
        children: Vec::new(alloc),
    })
}

/// The data of the segment of an object.
fn object_data(
    alloc: Global,
    fields: &[Field],
    objects: &Objects,
    key: &ObjectKey,
    key_place: u16,
) -> Result<Items<u8>, OutOfMemory>
    ensures { IfOk result (λ sdata. sdata
        ≡ data_of fields.now (object_text fields.now key_place key.now.key (fields_of key.now.kind key.now.key objects.now))) }
{
    let mut data = Vec::new(alloc);
    for (place, field) in fields.iter().enumerate() {
        let text = text_of(objects, key, field, place == usize::from(key_place));
        field.put_text(text, &mut data)?;
    }
    Ok(without_blanks(data))
}

/// The text of a field of an object, or its key where that is the key field.
fn text_of<'o>(objects: &'o Objects, key: &'o ObjectKey, field: &Field, is_key: bool) -> &'o [u8]
    ensures text { result.now ≡ take field.now.length
        (if is_key then key.now.key else value_in field.now.name (fields_of key.now.kind key.now.key objects.now)) }
    ensures fits { length result.now ≤ field.now.length }
{
    if is_key {
        return cut(key.key.as_slice(), field.length);
    }
    let value = value_before(
        objects,
        key.kind.as_slice(),
        key.key.as_slice(),
        field.name.as_slice(),
    );
    cut(value, field.length)
}

/// The text, cut at this length.
fn cut(text: &[u8], longest: u16) -> &[u8]
    ensures cut { result.now ≡ take longest text.now }
    ensures fits { length result.now ≤ longest }
{
    &text[..text.len().min(usize::from(longest))]
}

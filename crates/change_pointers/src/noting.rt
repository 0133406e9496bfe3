//! The pointers that a put notes.

ghost use Rattle.std.specs.Prelude.{◌≡◌, ◌++◌, ◌<◌, IfOk, OnOk, length, map};
ghost use Rattle.segment_defs.specs.Definitions.{AreDefinitions};
ghost use Rattle.dist_model.specs.Field.{all_fields};
ghost use Rattle.dist_model.specs.Model.{IsModel};
ghost use Rattle.object_store.specs.Objects.{value_in};
ghost use Rattle.object_store.specs.Posting.{fields_of};
ghost use Rattle.change_pointers.specs.Noted.{has_field, is_changed, listing, lists_field, name_at, noted_by, pointer_to};

use crate::Pointer;
use ale_base::{FieldValue, Items, OutOfMemory, trimmed};
use dist_model::{Lists, Message, MessageNo, Model, all_fields};
use object_store::Objects;
use segment_defs::{Definitions, Field, TypeNo};
use std::alloc::Global;

/// The pointers that a put of these fields notes by a model, over the objects as they are before it: one for each field whose
/// value changes, blanks at the end aside, and each message type of the kind that lists the field. They come in the order of the
/// fields, and for each in the order of the message types.
pub fn noted(
    alloc: Global,
    model: &Model,
    objects: &Objects,
    kind: &[u8],
    key: &[u8],
    fields: &[FieldValue],
) -> Result<Items<Pointer>, OutOfMemory>
    ensures { IfOk result (λ pointers. pointers ≡ noted_by model.now objects.now kind.now key.now fields.now) }
{
    let lists = model.as_lists();
    let mut pointers = Items::new(alloc);
    for field in fields {
        if is_changed(objects, kind, key, field) {
            let name = field.field.as_slice();
            push_pointers(alloc, lists, kind, key, name, &mut pointers)?;
        }
    }
    Ok(pointers)
}

/// Whether a value is another one than the field of an object has.
fn is_changed(objects: &Objects, kind: &[u8], key: &[u8], field: &FieldValue) -> bool
    ensures { result ≡ is_changed objects.now kind.now key.now field.now }
{
    value_before(objects, kind, key, field.field.as_slice()) != trimmed(field.value.as_slice())
}

/// The value of a field; none where it is blank or the object is not there.
pub(crate) fn value_before<'o>(
    objects: &'o Objects,
    kind: &[u8],
    key: &[u8],
    field: &[u8],
) -> &'o [u8]
    ensures { result.now ≡ value_in field.now (fields_of kind.now key.now objects.now) }
{
    match objects.value(kind, key, field) {
        None => &[],
        Some(value) => value,
    }
}

/// Adds a pointer for each message type that lists a field.
fn push_pointers(
    alloc: Global,
    lists: &Lists,
    kind: &[u8],
    key: &[u8],
    field: &[u8],
    pointers: &mut Items<Pointer>,
) -> Result<(), OutOfMemory>
    requires { IsModel lists.now }
    ensures { OnOk result (pointers.new ≡ pointers.old ++ map (pointer_to kind.now key.now field.now) (listing lists.now kind.now field.now)) }
{
    let messages = lists.messages.as_slice();
    for (place, message) in messages.iter().enumerate() {
        if lists_field(lists, kind, field, message) {
            let number = MessageNo(place as u16);
            pointers.push(pointer_to(alloc, kind, key, field, number)?)?;
        }
    }
    Ok(())
}

/// A pointer of a message type.
fn pointer_to(
    alloc: Global,
    kind: &[u8],
    key: &[u8],
    field: &[u8],
    message: MessageNo,
) -> Result<Pointer, OutOfMemory>
    ensures { IfOk result (λ pointer. pointer ≡ pointer_to kind.now key.now field.now message) }
{
    Ok(Pointer {
        kind: Items::from_slice(alloc, kind)?,
        key: Items::from_slice(alloc, key)?,
        field: Items::from_slice(alloc, field)?,
        message,
    })
}

/// Whether a message type is of a kind and lists a field of it.
fn lists_field(lists: &Lists, kind: &[u8], field: &[u8], message: &Message) -> bool
    requires { IsModel lists.now }
    ensures { result ≡ lists_field lists.now kind.now field.now message.now }
{
    match lists.kinds.get(usize::from(message.kind)) {
        None => false,
        Some(of_kind) => {
            of_kind.name.as_slice() == kind
                && has_field(
                    &lists.definitions,
                    of_kind.segment,
                    field,
                    message.pointers.as_slice(),
                )
        }
    }
}

/// Whether one of these places is that of the field of a name.
fn has_field(definitions: &Definitions, segment: TypeNo, name: &[u8], places: &[u16]) -> bool
    requires definitions { AreDefinitions definitions.now }
    requires exists { segment < length definitions.now.types }
    ensures { result ≡ has_field (all_fields definitions.now segment) name.now places.now }
{
    let fields = all_fields(definitions, segment);
    places.iter().any(|place| name_at(fields, *place) == name)
}

/// The name of the field at a place; no bytes where there is none. It takes no memory.
pub fn name_at(fields: &[Field], place: u16) -> &[u8]
    ensures { result.now ≡ name_at fields.now place }
{
    match fields.get(usize::from(place)) {
        None => &[],
        Some(field) => field.name.as_slice(),
    }
}

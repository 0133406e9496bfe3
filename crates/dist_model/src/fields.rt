//! The fields of a segment type, by their places and their names, and the entries of a message type.

ghost use Rattle.std.specs.Prelude.{◌≡◌, ◌<◌, ◌≤◌, ◌==◌, IfSome, is_some, length, position};
ghost use Rattle.std.specs.List.{list_any};
ghost use Rattle.ale_base.specs.Text.{is_text};
ghost use Rattle.segment_defs.specs.declared.limits.TheConstants.{MOST_FIELDS};
ghost use Rattle.segment_defs.specs.Definitions.{AreDefinitions};
ghost use Rattle.segment_defs.specs.IdocType.{entry_of};
ghost use Rattle.dist_model.specs.Field.{all_fields};
ghost use Rattle.dist_model.specs.Message.{entries_at, message_entries};

use crate::{Message, MessageNo};
use segment_defs::{Definitions, Field, IdocType, TypeNo, TypePlace};

/// All fields of a segment type, which are those of its newest definition. The place of one, from 0, is its number.
#[tactic(auto, using(crate::proofs::FieldLemmas::all_fields_few))]
pub fn all_fields(definitions: &Definitions, segment: TypeNo) -> &[Field]
    requires definitions { AreDefinitions definitions.now }
    requires exists { segment < length definitions.now.types }
    ensures fields { result.now ≡ all_fields definitions.now segment }
    ensures few { length result.now ≤ MOST_FIELDS }
{
    let number = segment.0;
    match definitions.types[usize::from(number)]
        .versions
        .as_slice()
        .last()
    {
        None => &[],
        Some(newest) => newest.fields.as_slice(),
    }
}

/// The place of the field of a name among some, of which there are not more than a definition may have. None exactly
/// where none has the name.
pub fn field_named(fields: &[Field], name: &[u8]) -> Option<u16>
    requires { length fields.now ≤ MOST_FIELDS }
    ensures place { result ≡ position (λ field. is_text name.now field.name) fields.now }
    ensures within { IfSome result (λ place. place < length fields.now) }
{
    match place_named(fields, name) {
        Some(place) => Some(place as u16),
        None => None,
    }
}

fn place_named(fields: &[Field], name: &[u8]) -> Option<usize>
    ensures place { result ≡ position (λ field. is_text name.now field.name) fields.now }
    ensures within { IfSome result (λ place. place < length fields.now) }
{
    fields
        .iter()
        .position(|field| name == field.name.as_slice())
}

/// The entries of the IDoc type at a place; none where there is no such IDoc type.
pub fn entries_at(types: &[IdocType], place: u16) -> &[TypePlace]
    ensures { result.now ≡ entries_at types.now place }
{
    match types.get(usize::from(place)) {
        None => &[],
        Some(idoc_type) => idoc_type.segments.as_slice(),
    }
}

/// The entries of the IDoc type of a message type; none where there is no such message type.
pub fn message_entries<'m>(
    types: &'m [IdocType],
    messages: &[Message],
    message: MessageNo,
) -> &'m [TypePlace]
    ensures { result.now ≡ message_entries types.now messages.now message }
{
    let place = message.0;
    match messages.get(usize::from(place)) {
        None => &[],
        Some(message) => entries_at(types, message.idoctype),
    }
}

/// Whether a segment type stands among some entries.
pub fn has_entry(entries: &[TypePlace], segment: TypeNo) -> bool
    ensures { result ≡ is_some (entry_of entries.now segment) }
{
    any_of(entries, segment)
}

fn any_of(entries: &[TypePlace], segment: TypeNo) -> bool
    ensures { result ≡ list_any (λ entry. entry.segment == segment) entries.now }
{
    entries.iter().any(|entry| entry.segment == segment)
}

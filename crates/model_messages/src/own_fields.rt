//! The fields of a kind's objects that a message type names.

ghost use Rattle.std.specs.Prelude.{◌≡◌, ◌<◌, length};
ghost use Rattle.toml.specs.View.{view, table_view, items_view};
ghost use Rattle.segment_defs.specs.Definitions.{AreDefinitions};
ghost use Rattle.model_keys.specs.Finding.{Gives};
ghost use Rattle.model_messages.specs.Messages.{own_field, own_field_of, own_fields_of, pointers_at, pointers_of, required_at};

use crate::fields::known_field;
use crate::keys::{POINTERS, REQUIRED};
use crate::roots::is_root_enough;
use ale_base::Items;
use dist_model::Kind;
use model_keys::{Cause, ReadError, any_list_or_none_at, at, get, name_of, within};
use segment_defs::{Definitions, LONGEST_NAME, TypePlace};
use std::alloc::Global;
use toml::{Table, Value};

/// The field of this name among those of a kind's objects, if it is not their key.
fn own_field(definitions: &Definitions, kind: &Kind, name: &[u8]) -> Option<u16>
    requires definitions { AreDefinitions definitions.now }
    requires kind { kind.now.segment < length definitions.now.types }
    ensures { result ≡ own_field definitions.now kind.now name.now }
{
    match known_field(definitions, kind.segment, name) {
        Some(place) if place != kind.key => Some(place),
        _ => None,
    }
}

#[tactic(auto, unfolding(crate::specs::Messages::own_field_of))]
fn own_field_of(
    alloc: Global,
    definitions: &Definitions,
    kind: &Kind,
    value: &Value,
) -> Result<u16, ReadError>
    requires definitions { AreDefinitions definitions.now }
    requires kind { kind.now.segment < length definitions.now.types }
    ensures { Gives (λ field. field) result (own_field_of definitions.now kind.now (view value.now)) }
{
    let name = name_of(alloc, LONGEST_NAME, "", value)?;
    match own_field(definitions, kind, name.as_bytes()) {
        None => Err(ReadError::Found(at(alloc, Cause::Wrong, "")?)),
        Some(field) => Ok(field),
    }
}

/// The fields of the list at a key.
fn own_fields_of(
    alloc: Global,
    definitions: &Definitions,
    kind: &Kind,
    key: &str,
    values: &[Value],
) -> Result<Items<u16>, ReadError>
    requires definitions { AreDefinitions definitions.now }
    requires kind { kind.now.segment < length definitions.now.types }
    ensures { Gives (λ fields. fields) result
        (own_fields_of definitions.now kind.now key.now (items_view values.now)) }
{
    let mut fields = Items::new(alloc);
    for (place, value) in values.iter().enumerate() {
        match own_field_of(alloc, definitions, kind, value) {
            Err(error) => return Err(within(alloc, key, place, error)),
            Ok(field) => fields.push(field)?,
        }
    }
    Ok(fields)
}

/// The fields without which an object is not posted.
#[tactic(auto, unfolding(crate::specs::Messages::required_at))]
pub(crate) fn required_at(
    alloc: Global,
    definitions: &Definitions,
    kind: &Kind,
    table: &Table,
) -> Result<Items<u16>, ReadError>
    requires definitions { AreDefinitions definitions.now }
    requires kind { kind.now.segment < length definitions.now.types }
    ensures { Gives (λ fields. fields) result
        (required_at definitions.now kind.now (table_view table.now)) }
{
    let values = any_list_or_none_at(alloc, REQUIRED, table)?;
    own_fields_of(alloc, definitions, kind, REQUIRED, values)
}

/// The fields whose changes make documents.
#[tactic(auto, unfolding(crate::specs::Messages::pointers_at))]
pub(crate) fn pointers_at(
    alloc: Global,
    definitions: &Definitions,
    entries: &[TypePlace],
    kind: &Kind,
    table: &Table,
) -> Result<Items<u16>, ReadError>
    requires definitions { AreDefinitions definitions.now }
    requires kind { kind.now.segment < length definitions.now.types }
    ensures { Gives (λ fields. fields) result
        (pointers_at definitions.now entries.now kind.now (table_view table.now)) }
{
    match get(table, POINTERS) {
        None => Ok(Items::new(alloc)),
        Some(value) => pointers_of(alloc, definitions, entries, kind, value),
    }
}

#[tactic(auto, unfolding(crate::specs::Messages::pointers_of))]
fn pointers_of(
    alloc: Global,
    definitions: &Definitions,
    entries: &[TypePlace],
    kind: &Kind,
    value: &Value,
) -> Result<Items<u16>, ReadError>
    requires definitions { AreDefinitions definitions.now }
    requires kind { kind.now.segment < length definitions.now.types }
    ensures { Gives (λ fields. fields) result
        (pointers_of definitions.now entries.now kind.now (view value.now)) }
{
    match value {
        Value::Array(array) => {
            // A change makes a document of the object alone.
            if !is_root_enough(entries) {
                return Err(ReadError::Found(at(alloc, Cause::Wrong, POINTERS)?));
            }
            own_fields_of(alloc, definitions, kind, POINTERS, array.as_slice())
        }
        _ => Err(ReadError::Found(at(alloc, Cause::Wrong, POINTERS)?)),
    }
}

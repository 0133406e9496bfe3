//! Values of fields.

ghost use Rattle.std.specs.Prelude.{◌≡◌, ◌<◌, length, IfOk};
ghost use Rattle.toml.specs.View.{view, table_view};
ghost use Rattle.segment_defs.specs.Definitions.{AreDefinitions};
ghost use Rattle.model_keys.specs.Finding.{Gives};
ghost use Rattle.model_profiles.specs.Values.{field_length, field_place, field_value_at, field_value_of, filter_text, filter_value_of};

use crate::segments::NamedSegments;
use ale_base::{Items, trimmed};
use dist_model::{FieldPlace, all_fields, field_named};
use model_keys::{Cause, ReadError, at, get};
use segment_defs::{Definitions, TypeNo};
use std::alloc::Global;
use toml::{Table, Value};

/// How many bytes a field has. 0 where there is no such field.
pub(crate) fn field_length(definitions: &Definitions, place: FieldPlace) -> usize
    requires { AreDefinitions definitions.now }
    ensures { result ≡ field_length definitions.now place.segment place.field }
{
    let number = place.segment.0;
    if usize::from(number) >= definitions.types.len() {
        return 0;
    }
    match all_fields(definitions, place.segment).get(usize::from(place.field)) {
        None => 0,
        Some(field) => usize::from(field.length),
    }
}

/// The place of the field of a segment type that has a name. None exactly where none has it.
pub(crate) fn field_place(on: &NamedSegments<'_>, segment: TypeNo, name: &[u8]) -> Option<u16>
    requires { segment < length on.now.definitions.types }
    ensures { result ≡ field_place on.now.definitions segment name.now }
{
    field_named(all_fields(on.definitions, segment), name)
}

/// A value of a field of so many bytes, without the blanks at its end: Wrong, at the path, where there is no text or one
/// that is longer.
#[tactic(auto, unfolding(crate::specs::Values::field_value_of))]
pub(crate) fn field_value_of(
    alloc: Global,
    width: usize,
    path: &str,
    value: &Value,
) -> Result<Items<u8>, ReadError>
    ensures { Gives (λ text. text) result (field_value_of width path.now (view value.now)) }
{
    match value {
        Value::String(text) if text.len() <= width => {
            Ok(Items::from_slice(alloc, trimmed(text.as_bytes()))?)
        }
        _ => Err(ReadError::Found(at(alloc, Cause::Wrong, path)?)),
    }
}

/// A value of a filter on a field of so many bytes, as it stands there; blanks alone are the value of a blank field. Wrong, where there
/// is no text or one that is longer.
#[tactic(auto, unfolding(crate::specs::Values::filter_value_of))]
pub(crate) fn filter_value_of(
    alloc: Global,
    width: usize,
    value: &Value,
) -> Result<Items<u8>, ReadError>
    ensures { Gives (λ text. text) result (filter_value_of width (view value.now)) }
{
    match value {
        Value::String(text) if text.len() <= width => {
            Ok(Items::from_slice(alloc, filter_text(text.as_bytes()))?)
        }
        _ => Err(ReadError::Found(at(alloc, Cause::Wrong, "")?)),
    }
}

/// A text as a value of a filter.
fn filter_text(text: &[u8]) -> &[u8]
    ensures { result.now ≡ filter_text text.now }
{
    if trimmed(text) == b"".as_slice() {
        &[]
    } else {
        text
    }
}

/// The text at a key that a field of this width takes, without blanks at its end: Missing, Wrong.
#[tactic(auto, unfolding(crate::specs::Values::field_value_at))]
pub(crate) fn field_value_at(
    alloc: Global,
    width: usize,
    key: &str,
    table: &Table,
) -> Result<Items<u8>, ReadError>
    ensures { Gives (λ text. text) result (field_value_at width key.now (table_view table.now)) }
{
    match get(table, key) {
        None => Err(ReadError::Found(at(alloc, Cause::Missing, key)?)),
        Some(value) => field_value_of(alloc, width, key, value),
    }
}

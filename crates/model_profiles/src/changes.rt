//! What a profile changes of a document: segment types that it removes, and values that it replaces.

ghost use Rattle.std.specs.Prelude.{◌<◌, IfOk, length};
ghost use Rattle.toml.specs.View.{view, table_view, items_view};
ghost use Rattle.model_keys.specs.Finding.{Gives};
ghost use Rattle.model_keys.specs.Keys.{segment_type_at};
ghost use Rattle.model_profiles.specs.Changes.{convert_of, converts_at, converts_of, removed_of, removes_at, removes_of};

use crate::keys::{CONVERT, CONVERT_KEYS, FIELD, FROM, REMOVE, SEGMENT, TO};
use crate::segments::NamedSegments;
use crate::values::{field_length, field_value_at};
use ale_base::Items;
use dist_model::{Convert, FieldPlace, MOST_CONVERSIONS, all_fields};
use model_keys::{
    Cause, ReadError, any_list_or_none_at, at, entry_of, field_at, list_or_none_at,
    segment_name_of, segment_type_at, within,
};
use segment_defs::TypeNo;
use std::alloc::Global;
use toml::{Table, Value};

/// The segment types that are removed. The list of them may be of any length.
#[tactic(auto, unfolding(crate::specs::Changes::removes_at))]
pub(crate) fn removes_at(
    alloc: Global,
    on: &NamedSegments<'_>,
    table: &Table,
) -> Result<Items<TypeNo>, ReadError>
    ensures { Gives (λ segments. segments) result (removes_at on.now.types (table_view table.now)) }
{
    let values = any_list_or_none_at(alloc, REMOVE, table)?;
    removes_of(alloc, on, values)
}

fn removes_of(
    alloc: Global,
    on: &NamedSegments<'_>,
    values: &[Value],
) -> Result<Items<TypeNo>, ReadError>
    ensures { Gives (λ segments. segments) result (removes_of on.now.types (items_view values.now)) }
{
    let mut segments = Items::new(alloc);
    for (place, value) in values.iter().enumerate() {
        match removed_of(alloc, on, value) {
            Err(error) => return Err(within(alloc, REMOVE, place, error)),
            Ok(segment) => segments.push(segment)?,
        }
    }
    Ok(segments)
}

/// The segment type that an element names: Wrong, Unknown.
#[tactic(auto, unfolding(crate::specs::Changes::removed_of))]
fn removed_of(alloc: Global, on: &NamedSegments<'_>, value: &Value) -> Result<TypeNo, ReadError>
    ensures { Gives (λ segment. segment) result (removed_of on.now.types (view value.now)) }
{
    let name = segment_name_of(alloc, "", value)?;
    match on.types.place(name.as_bytes()) {
        None => Err(ReadError::Found(at(alloc, Cause::Unknown, "")?)),
        Some(place) => Ok(TypeNo(place as u16)),
    }
}

/// The values that are replaced.
#[tactic(auto, unfolding(crate::specs::Changes::converts_at))]
pub(crate) fn converts_at(
    alloc: Global,
    on: &NamedSegments<'_>,
    table: &Table,
) -> Result<Items<Convert>, ReadError>
    ensures { Gives (λ converts. converts) result
        (converts_at on.now.types on.now.definitions (table_view table.now)) }
{
    let values = list_or_none_at(alloc, MOST_CONVERSIONS, CONVERT, table)?;
    converts_of(alloc, on, values)
}

fn converts_of(
    alloc: Global,
    on: &NamedSegments<'_>,
    values: &[Value],
) -> Result<Items<Convert>, ReadError>
    ensures { Gives (λ converts. converts) result
        (converts_of on.now.types on.now.definitions (items_view values.now)) }
{
    let mut converts = Items::new(alloc);
    for (place, value) in values.iter().enumerate() {
        match convert_of(alloc, on, value) {
            Err(error) => return Err(within(alloc, CONVERT, place, error)),
            Ok(convert) => converts.push(convert)?,
        }
    }
    Ok(converts)
}

/// A value of a field, and the one that replaces it.
#[tactic(auto, unfolding(crate::specs::Changes::convert_of))]
fn convert_of(alloc: Global, on: &NamedSegments<'_>, value: &Value) -> Result<Convert, ReadError>
    ensures { Gives (λ convert. convert) result (convert_of on.now.types on.now.definitions (view value.now)) }
{
    let table = entry_of(alloc, value, &CONVERT_KEYS)?;
    let segment = known_type_at(alloc, on, table)?;
    let field = field_at(alloc, FIELD, all_fields(on.definitions, segment), table)?;
    let width = field_length(on.definitions, FieldPlace { segment, field });
    let from = field_value_at(alloc, width, FROM, table)?;
    let to = field_value_at(alloc, width, TO, table)?;
    Ok(Convert {
        segment,
        field,
        from,
        to,
    })
}

/// The segment type of a pair of values: Missing, Wrong, Unknown.
fn known_type_at(alloc: Global, on: &NamedSegments<'_>, table: &Table) -> Result<TypeNo, ReadError>
    ensures given { Gives (λ segment. segment) result (segment_type_at SEGMENT.now on.now.types (table_view table.now)) }
    ensures known { IfOk result (λ segment. segment < length on.now.definitions.types) }
{
    let place = segment_type_at(alloc, SEGMENT, on.types, table)?;
    Ok(TypeNo(place as u16))
}

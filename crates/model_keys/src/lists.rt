//! Lists at keys.

ghost use Rattle.std.specs.Prelude.{◌≤◌, length, IfOk};
ghost use Rattle.toml.specs.View.{view, table_view, items_view};
ghost use Rattle.model_keys.specs.Finding.{Gives};
ghost use Rattle.model_keys.specs.Keys.{any_list_at, any_list_or_none_at, list_at, list_of, list_or_none_at, some_list_at, some_list_of};

use crate::finding::{Cause, ReadError, at};
use crate::tables::{get, value_at};
use std::alloc::Global;
use toml::{Table, Value};

/// The elements of a list that stands at a key: Wrong, at the key, where the value is none, Limit where it has more than the most.
#[tactic(auto, unfolding(crate::specs::Keys::list_of))]
pub fn list_of<'t>(
    alloc: Global,
    most: usize,
    key: &str,
    value: &'t Value,
) -> Result<&'t [Value], ReadError>
    ensures given { Gives (λ values. items_view values.now) result (list_of most key.now (view value.now)) }
    ensures few { IfOk result (λ values. length values.now ≤ most) }
{
    match value {
        Value::Array(array) => {
            if array.len() > most {
                return Err(ReadError::Found(at(alloc, Cause::Limit, key)?));
            }
            Ok(array.as_slice())
        }
        _ => Err(ReadError::Found(at(alloc, Cause::Wrong, key)?)),
    }
}

#[tactic(auto, unfolding(crate::specs::Keys::some_list_of))]
fn some_list_of<'t>(
    alloc: Global,
    most: usize,
    key: &str,
    value: &'t Value,
) -> Result<&'t [Value], ReadError>
    ensures given { Gives (λ values. items_view values.now) result (some_list_of most key.now (view value.now)) }
    ensures few { IfOk result (λ values. length values.now ≤ most) }
{
    let values = list_of(alloc, most, key, value)?;
    if values.is_empty() {
        return Err(ReadError::Found(at(alloc, Cause::Wrong, key)?));
    }
    Ok(values)
}

/// The elements of the list at a key, however many they are: Missing, Wrong where it is no list.
#[tactic(auto, unfolding(crate::specs::Keys::any_list_at))]
pub fn any_list_at<'t>(alloc: Global, key: &str, table: &'t Table) -> Result<&'t [Value], ReadError>
    ensures { Gives (λ values. items_view values.now) result (any_list_at key.now (table_view table.now)) }
{
    match value_at(alloc, table, key)? {
        Value::Array(array) => Ok(array.as_slice()),
        _ => Err(ReadError::Found(at(alloc, Cause::Wrong, key)?)),
    }
}

/// The elements of the list at a key that may be absent, however many they are: none where it is. Wrong where there is something else.
#[tactic(auto, unfolding(crate::specs::Keys::any_list_or_none_at))]
pub fn any_list_or_none_at<'t>(
    alloc: Global,
    key: &str,
    table: &'t Table,
) -> Result<&'t [Value], ReadError>
    ensures { Gives (λ values. items_view values.now) result (any_list_or_none_at key.now (table_view table.now)) }
{
    match get(table, key) {
        None => Ok(&[]),
        Some(Value::Array(array)) => Ok(array.as_slice()),
        Some(_) => Err(ReadError::Found(at(alloc, Cause::Wrong, key)?)),
    }
}

/// The elements of the list at a key, at most so many: Missing, Wrong where it is no list, Limit where it has more than the most.
#[tactic(auto, unfolding(crate::specs::Keys::list_at))]
pub fn list_at<'t>(
    alloc: Global,
    most: usize,
    key: &str,
    table: &'t Table,
) -> Result<&'t [Value], ReadError>
    ensures given { Gives (λ values. items_view values.now) result (list_at most key.now (table_view table.now)) }
    ensures few { IfOk result (λ values. length values.now ≤ most) }
{
    let value = value_at(alloc, table, key)?;
    list_of(alloc, most, key, value)
}

/// The elements of the list at a key, at most so many, of which there is one at least: Missing, Wrong where it is no list or empty, Limit
/// where it has more than the most.
#[tactic(auto, unfolding(crate::specs::Keys::some_list_at))]
pub fn some_list_at<'t>(
    alloc: Global,
    most: usize,
    key: &str,
    table: &'t Table,
) -> Result<&'t [Value], ReadError>
    ensures given { Gives (λ values. items_view values.now) result (some_list_at most key.now (table_view table.now)) }
    ensures few { IfOk result (λ values. length values.now ≤ most) }
{
    let value = value_at(alloc, table, key)?;
    some_list_of(alloc, most, key, value)
}

/// The elements of the list at a key that may be absent, at most so many: none where it is. Wrong where there is something else, Limit
/// where it has more than the most.
#[tactic(auto, unfolding(crate::specs::Keys::list_or_none_at))]
pub fn list_or_none_at<'t>(
    alloc: Global,
    most: usize,
    key: &str,
    table: &'t Table,
) -> Result<&'t [Value], ReadError>
    ensures given { Gives (λ values. items_view values.now) result (list_or_none_at most key.now (table_view table.now)) }
    ensures few { IfOk result (λ values. length values.now ≤ most) }
{
    match get(table, key) {
        None => Ok(&[]),
        Some(value) => list_of(alloc, most, key, value),
    }
}

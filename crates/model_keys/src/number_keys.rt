//! Numbers and truth values at keys.

ghost use Rattle.std.specs.Prelude.{◌≤◌, IfOk};
ghost use Rattle.toml.specs.View.{view, table_view};
ghost use Rattle.model_keys.specs.Finding.{Gives};
ghost use Rattle.model_keys.specs.Keys.{bool_of, bool_or_at, number_of};

use crate::finding::{Cause, ReadError, at};
use crate::tables::get;
use std::alloc::Global;
use toml::{Table, Value};

/// A whole number of a range: Wrong, at the path, where the value is none.
#[tactic(auto, unfolding(crate::specs::Keys::number_of))]
pub fn number_of(
    alloc: Global,
    least: u64,
    most: u64,
    path: &str,
    value: &Value,
) -> Result<u64, ReadError>
    ensures given { Gives (λ number. number) result (number_of least most path.now (view value.now)) }
    ensures within { IfOk result (λ number. (least ≤ number) × (number ≤ most)) }
{
    if let Value::Integer(number) = value {
        let number = *number;
        if number >= 0 {
            let number = number as u64;
            if least <= number && number <= most {
                return Ok(number);
            }
        }
    }
    Err(ReadError::Found(at(alloc, Cause::Wrong, path)?))
}

#[tactic(auto, unfolding(crate::specs::Keys::bool_of))]
fn bool_of(alloc: Global, path: &str, value: &Value) -> Result<bool, ReadError>
    ensures { Gives (λ is. is) result (bool_of path.now (view value.now)) }
{
    match value {
        Value::Boolean(is) => Ok(*is),
        _ => Err(ReadError::Found(at(alloc, Cause::Wrong, path)?)),
    }
}

/// The truth value at a key, or another one where the key is absent: Wrong where there is something else.
#[tactic(auto, unfolding(crate::specs::Keys::bool_or_at))]
pub fn bool_or_at(alloc: Global, other: bool, key: &str, table: &Table) -> Result<bool, ReadError>
    ensures { Gives (λ is. is) result (bool_or_at other key.now (table_view table.now)) }
{
    match get(table, key) {
        None => Ok(other),
        Some(value) => bool_of(alloc, key, value),
    }
}

//! Tables, their known keys, and what stands at one.

ghost use Rattle.std.specs.Prelude.{◌≡◌, List, map, true};
ghost use Rattle.std.specs.List.{list_any};
ghost use Rattle.std.specs.Option.{option_map};
ghost use Rattle.toml.specs.View.{view, table_view};
ghost use Rattle.toml.specs.Data.{get_member};
ghost use Rattle.ale_base.specs.Text.{is_text};
ghost use Rattle.model_keys.specs.Finding.{Gives};
ghost use Rattle.model_keys.specs.Keys.{entry_of, only_known, table_of, value_at};

use crate::finding::{Cause, ReadError, at, unknown};
use std::alloc::Global;
use toml::{Table, Value};

fn is_known(known: &[&str], key: &str) -> bool
    ensures { result ≡ list_any (is_text key.now) (map (λ name. name.now) known.now) }
{
    for name in known {
        if key == *name {
            return true;
        }
    }
    false
}

/// Whether a table has no other keys than those that are known. Unknown is the first in byte order that is not; the path
/// has a text before it, which is a dot for the table of an entry, and nothing for that of a whole text.
#[tactic(auto, unfolding(crate::specs::Keys::only_known))]
pub fn only_known(
    alloc: Global,
    before: &str,
    table: &Table,
    known: &[&str],
) -> Result<(), ReadError>
    ensures { Gives (λ _. true) result
        (only_known before.now (map (λ name. name.now) known.now) (table_view table.now)) }
{
    for (key, _) in table.iter() {
        if !is_known(known, key.as_str()) {
            return Err(ReadError::Found(unknown(alloc, before, key.as_str())?));
        }
    }
    Ok(())
}

/// The table that an entry has to be: Wrong, at the entry, where it is none.
#[tactic(auto, unfolding(crate::specs::Keys::table_of))]
pub fn table_of(alloc: Global, value: &Value) -> Result<&Table, ReadError>
    ensures { Gives (λ table. table_view table.now) result (table_of (view value.now)) }
{
    match value {
        Value::Table(table) => Ok(table),
        _ => Err(ReadError::Found(at(alloc, Cause::Wrong, "")?)),
    }
}

/// The table of an entry. Wrong, at the entry, where it is no table; Unknown at the first key in byte order that is not
/// known.
#[tactic(auto, unfolding(crate::specs::Keys::entry_of))]
pub fn entry_of<'t>(alloc: Global, value: &'t Value, known: &[&str]) -> Result<&'t Table, ReadError>
    ensures { Gives (λ table. table_view table.now) result
        (entry_of (map (λ name. name.now) known.now) (view value.now)) }
{
    let table = table_of(alloc, value)?;
    only_known(alloc, ".", table, known)?;
    Ok(table)
}

/// What stands at a key. None exactly where the key is absent.
pub fn get<'t>(table: &'t Table, key: &str) -> Option<&'t Value>
    ensures { option_map (λ value. view value.now) result ≡ get_member key.now (table_view table.now) }
{
    table.get(key)
}

/// What stands at a key that has to be there.
#[tactic(auto, unfolding(crate::specs::Keys::value_at), using(toml::proofs::Views::table_get))]
pub(crate) fn value_at<'t>(
    alloc: Global,
    table: &'t Table,
    key: &str,
) -> Result<&'t Value, ReadError>
    ensures { Gives (λ value. view value.now) result (value_at key.now (table_view table.now)) }
{
    match table.get(key) {
        None => Err(ReadError::Found(at(alloc, Cause::Missing, key)?)),
        Some(value) => Ok(value),
    }
}

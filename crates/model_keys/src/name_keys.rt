//! Names at keys: new ones, and those that refer to something.

ghost use Rattle.std.specs.Prelude.{◌≡◌, ◌<◌, ◌∷◌, ◌++◌, [], length, IfOk, IsTrue, OnErr};
ghost use Rattle.toml.specs.View.{view, table_view};
ghost use Rattle.segment_defs.specs.declared.limits.TheConstants.{LONGEST_NAME};
ghost use Rattle.segment_defs.specs.Name.{is_name_within};
ghost use Rattle.model_keys.specs.Finding.{Gives};
ghost use Rattle.model_keys.specs.Keys.{name_at, name_of, new_name, new_name_at, new_name_of, new_segment_name_at, reference_at, segment_name_at, segment_name_of, segment_type_at};

use crate::finding::{Cause, ReadError, at};
use crate::tables::value_at;
use ale_base::{Fixed, Items};
use dist_model::Names;
use segment_defs::{is_name_within, is_segment_name};
use std::alloc::Global;
use toml::{Table, Value};

/// A name of at most so many bytes: Wrong, at the path, where the value is none.
#[tactic(auto, unfolding(crate::specs::Keys::name_of))]
pub fn name_of<'t>(
    alloc: Global,
    longest: usize,
    path: &str,
    value: &'t Value,
) -> Result<&'t str, ReadError>
    ensures given { Gives (λ name. name.now) result (name_of longest path.now (view value.now)) }
    ensures named { IfOk result (λ name. IsTrue (is_name_within longest name.now)) }
{
    match value {
        Value::String(text) if is_name_within(longest, text.as_bytes()) => Ok(text.as_str()),
        _ => Err(ReadError::Found(at(alloc, Cause::Wrong, path)?)),
    }
}

/// A name in a field of its longest length.
pub fn fixed_name(name: &[u8]) -> Fixed<30>
    requires { IsTrue (is_name_within LONGEST_NAME name.now) }
    ensures { result ≡ name.now }
{
    Fixed::of(name).unwrap()
}

/// The name at a key: Missing, Wrong.
#[tactic(auto, unfolding(crate::specs::Keys::name_at))]
pub fn name_at<'t>(
    alloc: Global,
    longest: usize,
    key: &str,
    table: &'t Table,
) -> Result<&'t str, ReadError>
    ensures { Gives (λ name. name.now) result (name_at longest key.now (table_view table.now)) }
{
    let value = value_at(alloc, table, key)?;
    name_of(alloc, longest, key, value)
}

/// A name of a segment type or of a definition: Wrong, at the path, where the value is none.
#[tactic(auto, unfolding(crate::specs::Keys::segment_name_of))]
pub fn segment_name_of<'t>(
    alloc: Global,
    path: &str,
    value: &'t Value,
) -> Result<&'t str, ReadError>
    ensures { Gives (λ name. name.now) result (segment_name_of path.now (view value.now)) }
{
    match value {
        Value::String(text) if is_segment_name(text.as_bytes()) => Ok(text.as_str()),
        _ => Err(ReadError::Found(at(alloc, Cause::Wrong, path)?)),
    }
}

#[tactic(auto, unfolding(crate::specs::Keys::segment_name_at))]
fn segment_name_at<'t>(alloc: Global, key: &str, table: &'t Table) -> Result<&'t str, ReadError>
    ensures { Gives (λ name. name.now) result (segment_name_at key.now (table_view table.now)) }
{
    let value = value_at(alloc, table, key)?;
    segment_name_of(alloc, key, value)
}

/// The place of the segment type whose name stands at a key: Missing, Wrong, Unknown where none has the name.
#[tactic(auto, unfolding(crate::specs::Keys::segment_type_at))]
pub fn segment_type_at(
    alloc: Global,
    key: &str,
    types: &Names,
    table: &Table,
) -> Result<usize, ReadError>
    ensures given { Gives (λ place. place) result (segment_type_at key.now types.now (table_view table.now)) }
    ensures within { IfOk result (λ place. place < length types.now) }
{
    let name = segment_name_at(alloc, key, table)?;
    match types.place(name.as_bytes()) {
        None => Err(ReadError::Found(at(alloc, Cause::Unknown, key)?)),
        Some(place) => Ok(place),
    }
}

/// The place of the thing that the name at a key refers to: Missing, Wrong, Unknown where none has the name.
#[tactic(auto, unfolding(crate::specs::Keys::reference_at))]
pub fn reference_at(
    alloc: Global,
    longest: usize,
    key: &str,
    names: &Names,
    table: &Table,
) -> Result<usize, ReadError>
    ensures given { Gives (λ place. place) result (reference_at longest key.now names.now (table_view table.now)) }
    ensures within { IfOk result (λ place. place < length names.now) }
{
    let name = name_at(alloc, longest, key, table)?;
    match names.place(name.as_bytes()) {
        None => Err(ReadError::Found(at(alloc, Cause::Unknown, key)?)),
        Some(place) => Ok(place),
    }
}

/// A name that is new among some: Twice, at the path, where it is not. It is one of them from then on;
/// after an `Err` they are as before.
#[tactic(auto, unfolding(crate::specs::Keys::new_name))]
pub fn new_name(
    alloc: Global,
    path: &str,
    names: &mut Names,
    name: &[u8],
) -> Result<Items<u8>, ReadError>
    ensures given { Gives (λ name. name) result (new_name path.now names.old name.now) }
    ensures added { IfOk result (λ name. names.new ≡ names.old ++ name ∷ []) }
    ensures err { OnErr result (names.new ≡ names.old) }
{
    // What can fail comes first, so that the names stay as they were.
    let copy = Items::from_slice(alloc, name)?;
    if !names.add(alloc, name)? {
        return Err(ReadError::Found(at(alloc, Cause::Twice, path)?));
    }
    Ok(copy)
}

/// A name of at most so many bytes that is new among some: Wrong, Twice, at the path. It is one of them from then on.
#[tactic(auto, unfolding(crate::specs::Keys::new_name_of))]
pub fn new_name_of(
    alloc: Global,
    longest: usize,
    path: &str,
    names: &mut Names,
    value: &Value,
) -> Result<Items<u8>, ReadError>
    ensures given { Gives (λ name. name) result (new_name_of longest path.now names.old (view value.now)) }
    ensures added { IfOk result (λ name. names.new ≡ names.old ++ name ∷ []) }
    ensures err { OnErr result (names.new ≡ names.old) }
{
    let name = name_of(alloc, longest, path, value)?;
    new_name(alloc, path, names, name.as_bytes())
}

/// The name at a key, of at most so many bytes and new among some: Missing, Wrong, Twice. It is one of them from then on.
#[tactic(auto, unfolding(crate::specs::Keys::new_name_at))]
pub fn new_name_at(
    alloc: Global,
    longest: usize,
    key: &str,
    names: &mut Names,
    table: &Table,
) -> Result<Items<u8>, ReadError>
    ensures given { Gives (λ name. name) result (new_name_at longest key.now names.old (table_view table.now)) }
    ensures added { IfOk result (λ name. names.new ≡ names.old ++ name ∷ []) }
    ensures err { OnErr result (names.new ≡ names.old) }
{
    let value = value_at(alloc, table, key)?;
    new_name_of(alloc, longest, key, names, value)
}

/// The name of a segment type or of a definition at a key, new among some: Missing, Wrong, Twice. It is one of them from
/// then on.
#[tactic(auto, unfolding(crate::specs::Keys::new_segment_name_at))]
pub fn new_segment_name_at(
    alloc: Global,
    key: &str,
    names: &mut Names,
    table: &Table,
) -> Result<Items<u8>, ReadError>
    ensures given { Gives (λ name. name) result (new_segment_name_at key.now names.old (table_view table.now)) }
    ensures added { IfOk result (λ name. names.new ≡ names.old ++ name ∷ []) }
    ensures err { OnErr result (names.new ≡ names.old) }
{
    let name = segment_name_at(alloc, key, table)?;
    new_name(alloc, key, names, name.as_bytes())
}

//! The entries of an IDoc type.

ghost use Rattle.std.specs.Prelude.{◌≡◌, ◌<◌, ◌≤◌, ◌∷◌, ◌++◌, [], IfOk, IfSome, length, true};
ghost use Rattle.toml.specs.View.{view, table_view, items_view};
ghost use Rattle.segment_defs.specs.declared.limits.TheConstants.{MOST_TIMES, MOST_TYPES};
ghost use Rattle.segment_defs.specs.IdocType.{IsPreorder};
ghost use Rattle.dist_model.specs.declared.limits.TheConstants.{MOST_ENTRIES};
ghost use Rattle.model_keys.specs.Finding.{Gives};
ghost use Rattle.model_text.specs.Entries.{entries_of, entry_types, greatest_at, max_at, min_at, min_of, new_type_at, parent_at, parent_of, parent_place, root_of, times_at, type_place_of};

use crate::keys::{ENTRY_KEYS, MANDATORY, MAX, MIN, PARENT, SEGMENT, TYPE};
use ale_base::Items;
use dist_model::{Names, Numbers};
use model_keys::{
    Cause, ReadError, at, bool_or_at, entry_of, get, number_of, segment_type_at, within,
};
use segment_defs::{MOST_LEVELS, MOST_TIMES, TypeNo, TypePlace, levels_to};
use std::alloc::Global;
use toml::{Table, Value};

/// The entries of an IDoc type over these segment types.
pub(crate) fn entries_of(
    alloc: Global,
    types: &Names,
    values: &[Value],
) -> Result<Items<TypePlace>, ReadError>
    requires types { length types.now ≤ MOST_TYPES }
    requires few { length values.now ≤ MOST_ENTRIES }
    ensures { Gives (λ entries. entries) result (entries_of types.now (items_view values.now)) }
{
    let mut entries = Items::new(alloc);
    let mut segments = Numbers::new(alloc);
    for (place, value) in values.iter().enumerate() {
        match type_place_of(alloc, types, &mut segments, entries.as_slice(), value) {
            Err(error) => return Err(within(alloc, SEGMENT, place, error)),
            Ok(entry) => entries.push(entry)?,
        }
    }
    Ok(entries)
}

/// One more entry behind some. Its segment type is in the table of those from then on.
#[tactic(auto, unfolding(crate::specs::Entries::type_place_of))]
fn type_place_of(
    alloc: Global,
    types: &Names,
    segments: &mut Numbers,
    entries: &[TypePlace],
    value: &Value,
) -> Result<TypePlace, ReadError>
    requires types { length types.now ≤ MOST_TYPES }
    requires few { length entries.now < MOST_ENTRIES }
    requires preorder { IsPreorder 0 [] entries.now }
    requires segments { segments.old ≡ entry_types entries.now }
    ensures given { Gives (λ entry. entry) result (type_place_of types.now entries.now (view value.now)) }
    ensures listed { IfOk result (λ entry. segments.new ≡ segments.old ++ entry.segment ∷ []) }
{
    let table = entry_of(alloc, value, &ENTRY_KEYS)?;
    let segment = new_type_at(alloc, types, segments, table)?;
    let parent = parent_at(alloc, types, segments, entries, table)?;
    let (mandatory, min, max) = times_at(alloc, table)?;
    root_of(alloc, entries, mandatory, min, max)?;
    Ok(TypePlace {
        segment: TypeNo(segment),
        parent,
        mandatory,
        min,
        max,
    })
}

/// The segment type of an entry, which none of the entries before it has.
#[tactic(auto, unfolding(crate::specs::Entries::new_type_at))]
fn new_type_at(
    alloc: Global,
    types: &Names,
    segments: &mut Numbers,
    table: &Table,
) -> Result<u16, ReadError>
    requires { length types.now ≤ MOST_TYPES }
    ensures given { Gives (λ segment. segment) result (new_type_at types.now segments.old (table_view table.now)) }
    ensures listed { IfOk result (λ segment. segments.new ≡ segments.old ++ segment ∷ []) }
{
    let segment = segment_type_at(alloc, TYPE, types, table)?;
    if !segments.add(segment)? {
        return Err(ReadError::Found(at(alloc, Cause::Twice, TYPE)?));
    }
    Ok(segment as u16)
}

/// The place of the entry whose segment type has this name.
fn parent_place(types: &Names, segments: &Numbers, text: &[u8]) -> Option<usize>
    ensures place { result ≡ parent_place types.now segments.now text.now }
    ensures within { IfSome result (λ place. place < length segments.now) }
{
    match types.place(text) {
        None => None,
        Some(segment) => segments.place(segment),
    }
}

/// The parent of an entry behind some: the last of them, or one above that.
#[tactic(auto, unfolding(crate::specs::Entries::parent_of))]
fn parent_of(
    alloc: Global,
    types: &Names,
    segments: &Numbers,
    entries: &[TypePlace],
    value: &Value,
) -> Result<u16, ReadError>
    requires preorder { IsPreorder 0 [] entries.now }
    requires few { length segments.now ≤ MOST_ENTRIES }
    ensures { Gives (λ place. place) result (parent_of types.now segments.now entries.now (view value.now)) }
{
    let text = match value {
        Value::String(text) => text.as_bytes(),
        _ => return Err(ReadError::Found(at(alloc, Cause::Wrong, PARENT)?)),
    };
    match parent_place(types, segments, text) {
        None => Err(ReadError::Found(at(alloc, Cause::Wrong, PARENT)?)),
        Some(place) => {
            let level = levels_to(place, entries);
            if level == 0 {
                return Err(ReadError::Found(at(alloc, Cause::Wrong, PARENT)?));
            }
            if level >= MOST_LEVELS {
                return Err(ReadError::Found(at(alloc, Cause::Limit, PARENT)?));
            }
            Ok(place as u16)
        }
    }
}

#[tactic(auto, unfolding(crate::specs::Entries::parent_at))]
fn parent_at(
    alloc: Global,
    types: &Names,
    segments: &Numbers,
    entries: &[TypePlace],
    table: &Table,
) -> Result<Option<u16>, ReadError>
    requires preorder { IsPreorder 0 [] entries.now }
    requires few { length segments.now ≤ MOST_ENTRIES }
    ensures { Gives (λ parent. parent) result
        (parent_at types.now segments.now entries.now (table_view table.now)) }
{
    match get(table, PARENT) {
        None => Ok(None),
        Some(value) => {
            let place = parent_of(alloc, types, segments, entries, value)?;
            Ok(Some(place))
        }
    }
}

/// Whether an entry is mandatory, and how often it may occur.
#[tactic(auto, unfolding(crate::specs::Entries::times_at))]
fn times_at(alloc: Global, table: &Table) -> Result<(bool, u32, u32), ReadError>
    ensures { Gives (λ times. times) result (times_at (table_view table.now)) }
{
    let mandatory = bool_or_at(alloc, false, MANDATORY, table)?;
    let min = min_at(alloc, mandatory, table)?;
    let max = max_at(alloc, min, table)?;
    Ok((mandatory, min as u32, max))
}

#[tactic(auto, unfolding(crate::specs::Entries::min_of))]
fn min_of(alloc: Global, mandatory: bool, value: &Value) -> Result<u64, ReadError>
    ensures { Gives (λ min. min) result (min_of mandatory (view value.now)) }
{
    let min = number_of(alloc, 1, i64::MAX as u64, MIN, value)?;
    if !mandatory {
        return Err(ReadError::Found(at(alloc, Cause::Wrong, MIN)?));
    }
    Ok(min)
}

/// The least number, which only a mandatory entry gives.
#[tactic(auto, unfolding(crate::specs::Entries::min_at))]
fn min_at(alloc: Global, mandatory: bool, table: &Table) -> Result<u64, ReadError>
    ensures { Gives (λ min. min) result (min_at mandatory (table_view table.now)) }
{
    match get(table, MIN) {
        None => Ok(1),
        Some(value) => min_of(alloc, mandatory, value),
    }
}

fn greatest_at(alloc: Global, table: &Table) -> Result<u64, ReadError>
    ensures given { Gives (λ max. max) result (greatest_at (table_view table.now)) }
    ensures most { IfOk result (λ max. max ≤ MOST_TIMES) }
{
    match get(table, MAX) {
        None => Ok(1),
        Some(value) => number_of(alloc, 1, u64::from(MOST_TIMES), MAX, value),
    }
}

/// The greatest number, no less than the least.
#[tactic(auto, unfolding(crate::specs::Entries::max_at))]
fn max_at(alloc: Global, min: u64, table: &Table) -> Result<u32, ReadError>
    ensures given { Gives (λ max. max) result (max_at min (table_view table.now)) }
    ensures ordered { IfOk result (λ max. (min ≤ max) × (max ≤ MOST_TIMES)) }
{
    let max = greatest_at(alloc, table)?;
    if min > max {
        return Err(ReadError::Found(at(alloc, Cause::Wrong, MAX)?));
    }
    Ok(max as u32)
}

/// The first entry is mandatory and occurs once; of others nothing more is asked.
fn root_of(
    alloc: Global,
    entries: &[TypePlace],
    mandatory: bool,
    min: u32,
    max: u32,
) -> Result<(), ReadError>
    ensures { Gives (λ _. true) result (root_of entries.now mandatory min max) }
{
    match entries {
        [_, ..] => Ok(()),
        [] => {
            if !mandatory {
                return Err(ReadError::Found(at(alloc, Cause::Wrong, MANDATORY)?));
            }
            if min != 1 {
                return Err(ReadError::Found(at(alloc, Cause::Wrong, MIN)?));
            }
            if max != 1 {
                return Err(ReadError::Found(at(alloc, Cause::Wrong, MAX)?));
            }
            Ok(())
        }
    }
}

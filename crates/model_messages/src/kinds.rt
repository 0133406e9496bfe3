//! The section of the kinds.

ghost use Rattle.std.specs.Prelude.{◌≡◌, ◌∷◌, ◌++◌, [], IfOk};
ghost use Rattle.toml.specs.View.{view, table_view, items_view};
ghost use Rattle.segment_defs.specs.Definitions.{AreDefinitions};
ghost use Rattle.dist_model.specs.Kind.{kind_names, AreKinds};
ghost use Rattle.dist_model.specs.Model.{type_names};
ghost use Rattle.model_keys.specs.Finding.{Gives};
ghost use Rattle.model_keys.specs.Says.{SaysListOrNone};
ghost use Rattle.model_messages.specs.declared.keys.TheConstants.{KIND};
ghost use Rattle.model_messages.specs.Says.{SaysKind};
ghost use Rattle.model_messages.specs.Kinds.{key_at, kind_of, kinds_at, kinds_of};

use crate::fields::first_field;
use crate::keys::{KEY, KIND, KIND_KEYS, NAME, SEGMENT};
use ale_base::Items;
use dist_model::{Kind, MOST_KINDS, Names};
use model_keys::{
    Cause, ReadError, at, entry_of, list_or_none_at, name_at, new_name_at, segment_type_at, within,
};
use segment_defs::{Definitions, LONGEST_NAME, TypeNo};
use std::alloc::Global;
use toml::{Table, Value};

/// The kinds over these segment types, whose names are in a table; none where the key is absent. The names of the kinds
/// are in theirs from then on; after an `Err` it is of no use.
///
/// The first finding is the answer: at the list Wrong where it is none, and Limit where it has more than `MOST_KINDS`
/// elements; at an element Wrong where it is no table; then, key by key:
///
/// - a key that is not known (Unknown, the first in byte order);
/// - `name` is absent (Missing), is no name (Wrong), or is that of a kind before it (Twice);
/// - `segment` is absent (Missing), is no name of a segment type (Wrong), or is that of none (Unknown);
/// - `key` is absent (Missing), or is no field of the first definition of the segment type (Wrong).
#[tactic(auto, unfolding(crate::specs::Kinds::kinds_at))]
pub fn kinds_at(
    alloc: Global,
    definitions: &Definitions,
    types: &Names,
    kinds: &mut Names,
    table: &Table,
) -> Result<Items<Kind>, ReadError>
    requires definitions { AreDefinitions definitions.now }
    requires types { types.now ≡ type_names definitions.now.types }
    requires kinds { kinds.old ≡ [] }
    ensures given { Gives (λ kinds. kinds) result (kinds_at definitions.now (table_view table.now)) }
    ensures kept { IfOk result (AreKinds definitions.now) }
    ensures entries { IfOk result (SaysListOrNone (SaysKind definitions.now) KIND.now (table_view table.now)) }
    ensures named { IfOk result (λ all. kinds.new ≡ kind_names all) }
{
    let values = list_or_none_at(alloc, MOST_KINDS, KIND, table)?;
    kinds_of(alloc, definitions, types, kinds, values)
}

fn kinds_of(
    alloc: Global,
    definitions: &Definitions,
    types: &Names,
    names: &mut Names,
    values: &[Value],
) -> Result<Items<Kind>, ReadError>
    requires definitions { AreDefinitions definitions.now }
    requires types { types.now ≡ type_names definitions.now.types }
    requires names { names.old ≡ [] }
    ensures given { Gives (λ kinds. kinds) result (kinds_of definitions.now (items_view values.now)) }
    ensures named { IfOk result (λ kinds. names.new ≡ kind_names kinds) }
{
    let mut kinds = Items::new(alloc);
    for (place, value) in values.iter().enumerate() {
        match kind_of(alloc, definitions, types, names, value) {
            Err(error) => return Err(within(alloc, KIND, place, error)),
            Ok(kind) => kinds.push(kind)?,
        }
    }
    Ok(kinds)
}

#[tactic(auto, unfolding(crate::specs::Kinds::kind_of))]
fn kind_of(
    alloc: Global,
    definitions: &Definitions,
    types: &Names,
    names: &mut Names,
    value: &Value,
) -> Result<Kind, ReadError>
    requires definitions { AreDefinitions definitions.now }
    requires types { types.now ≡ type_names definitions.now.types }
    ensures given { Gives (λ kind. kind) result (kind_of definitions.now names.old (view value.now)) }
    ensures named { IfOk result (λ kind. names.new ≡ names.old ++ kind.name ∷ []) }
{
    let table = entry_of(alloc, value, &KIND_KEYS)?;
    let name = new_name_at(alloc, LONGEST_NAME, NAME, names, table)?;
    // there are at most 1,000 segment types
    let segment = TypeNo(segment_type_at(alloc, SEGMENT, types, table)? as u16);
    let key = key_at(alloc, definitions, segment, table)?;
    Ok(Kind { name, segment, key })
}

#[tactic(auto, unfolding(crate::specs::Kinds::key_at))]
fn key_at(
    alloc: Global,
    definitions: &Definitions,
    segment: TypeNo,
    table: &Table,
) -> Result<u16, ReadError>
    requires { AreDefinitions definitions.now }
    ensures { Gives (λ key. key) result (key_at definitions.now segment (table_view table.now)) }
{
    let name = name_at(alloc, LONGEST_NAME, KEY, table)?;
    match first_field(definitions, segment, name.as_bytes()) {
        None => Err(ReadError::Found(at(alloc, Cause::Wrong, KEY)?)),
        Some(key) => Ok(key),
    }
}

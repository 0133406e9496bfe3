//! The section of the IDoc types.

ghost use Rattle.std.specs.Prelude.{◌≡◌, ◌≤◌, ◌∷◌, ◌++◌, [], IfOk, length};
ghost use Rattle.toml.specs.View.{view, table_view, items_view};
ghost use Rattle.segment_defs.specs.declared.limits.TheConstants.{MOST_TYPES};
ghost use Rattle.dist_model.specs.Model.{idoc_type_names};
ghost use Rattle.model_keys.specs.Finding.{Gives};
ghost use Rattle.model_text.specs.IdocTypes.{idoc_type_of, idoc_types_at, idoc_types_of};

use crate::entries::entries_of;
use crate::keys::{IDOCTYPE, IDOCTYPE_KEYS, NAME, SEGMENT};
use ale_base::Items;
use dist_model::{MOST_ENTRIES, MOST_IDOC_TYPES, Names};
use model_keys::{ReadError, entry_of, list_or_none_at, new_name_at, some_list_at, within};
use segment_defs::{IdocType, LONGEST_NAME};
use std::alloc::Global;
use toml::{Table, Value};

/// The IDoc types over these segment types. Their names are in the table from then on.
#[tactic(auto, unfolding(crate::specs::IdocTypes::idoc_types_at))]
pub(crate) fn idoc_types_at(
    alloc: Global,
    types: &Names,
    names: &mut Names,
    table: &Table,
) -> Result<Items<IdocType>, ReadError>
    requires types { length types.now ≤ MOST_TYPES }
    requires none { names.old ≡ [] }
    ensures given { Gives (λ idoc_types. idoc_types) result (idoc_types_at types.now (table_view table.now)) }
    ensures named { IfOk result (λ idoc_types. names.new ≡ idoc_type_names idoc_types) }
{
    let values = list_or_none_at(alloc, MOST_IDOC_TYPES, IDOCTYPE, table)?;
    idoc_types_of(alloc, types, names, values)
}

fn idoc_types_of(
    alloc: Global,
    types: &Names,
    names: &mut Names,
    values: &[Value],
) -> Result<Items<IdocType>, ReadError>
    requires types { length types.now ≤ MOST_TYPES }
    requires none { names.old ≡ [] }
    ensures given { Gives (λ idoc_types. idoc_types) result (idoc_types_of types.now (items_view values.now)) }
    ensures named { IfOk result (λ idoc_types. names.new ≡ idoc_type_names idoc_types) }
{
    let mut idoc_types = Items::new(alloc);
    for (place, value) in values.iter().enumerate() {
        match idoc_type_of(alloc, types, names, value) {
            Err(error) => return Err(within(alloc, IDOCTYPE, place, error)),
            Ok(idoc_type) => idoc_types.push(idoc_type)?,
        }
    }
    Ok(idoc_types)
}

#[tactic(auto, unfolding(crate::specs::IdocTypes::idoc_type_of))]
fn idoc_type_of(
    alloc: Global,
    types: &Names,
    names: &mut Names,
    value: &Value,
) -> Result<IdocType, ReadError>
    requires { length types.now ≤ MOST_TYPES }
    ensures given { Gives (λ idoc_type. idoc_type) result (idoc_type_of types.now names.old (view value.now)) }
    ensures named { IfOk result (λ idoc_type. names.new ≡ names.old ++ idoc_type.name ∷ []) }
{
    let table = entry_of(alloc, value, &IDOCTYPE_KEYS)?;
    let name = new_name_at(alloc, LONGEST_NAME, NAME, names, table)?;
    let values = some_list_at(alloc, MOST_ENTRIES, SEGMENT, table)?;
    let segments = entries_of(alloc, types, values)?;
    Ok(IdocType { name, segments })
}

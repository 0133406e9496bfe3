//! Fields that a key names.

ghost use Rattle.std.specs.Prelude.{◌≡◌, ◌≤◌, length};
ghost use Rattle.toml.specs.View.{table_view};
ghost use Rattle.segment_defs.specs.declared.limits.TheConstants.{MOST_FIELDS};
ghost use Rattle.model_keys.specs.Finding.{Gives};
ghost use Rattle.model_keys.specs.Fields.{field_at, field_named};

use crate::finding::{Cause, ReadError, at};
use crate::name_keys::name_at;
use dist_model::field_named;
use segment_defs::{Field, LONGEST_NAME};
use std::alloc::Global;
use toml::Table;

/// The place of the field, among some, that is named at a key: Missing, Wrong, and Unknown where none has the name.
#[tactic(auto, unfolding(crate::specs::Fields::field_at))]
pub fn field_at(alloc: Global, key: &str, fields: &[Field], table: &Table) -> Result<u16, ReadError>
    requires { length fields.now ≤ MOST_FIELDS }
    ensures { Gives (λ place. place) result (field_at key.now fields.now (table_view table.now)) }
{
    let name = name_at(alloc, LONGEST_NAME, key, table)?;
    match place_named(fields, name.as_bytes()) {
        None => Err(ReadError::Found(at(alloc, Cause::Unknown, key)?)),
        Some(place) => Ok(place),
    }
}

/// The place of the field of a name among some.
fn place_named(fields: &[Field], name: &[u8]) -> Option<u16>
    requires { length fields.now ≤ MOST_FIELDS }
    ensures { result ≡ field_named fields.now name.now }
{
    field_named(fields, name)
}

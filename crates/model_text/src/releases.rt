//! The section of the releases.

ghost use Rattle.std.specs.Prelude.{◌≡◌, [], IfOk};
ghost use Rattle.toml.specs.View.{table_view, items_view};
ghost use Rattle.model_keys.specs.Finding.{Gives};
ghost use Rattle.model_text.specs.Releases.{releases_at, releases_of};

use crate::keys::RELEASES;
use ale_base::Items;
use dist_model::{LONGEST_RELEASE, MOST_RELEASES, Names};
use model_keys::{ReadError, new_name_of, some_list_at, within};
use std::alloc::Global;
use toml::{Table, Value};

/// The names of the releases, which are in the table from then on.
#[tactic(auto, unfolding(crate::specs::Releases::releases_at))]
pub(crate) fn releases_at(
    alloc: Global,
    names: &mut Names,
    table: &Table,
) -> Result<Items<Items<u8>>, ReadError>
    requires { names.old ≡ [] }
    ensures given { Gives (λ releases. releases) result (releases_at (table_view table.now)) }
    ensures named { IfOk result (λ releases. names.new ≡ releases) }
{
    let values = some_list_at(alloc, MOST_RELEASES, RELEASES, table)?;
    releases_of(alloc, names, values)
}

fn releases_of(
    alloc: Global,
    names: &mut Names,
    values: &[Value],
) -> Result<Items<Items<u8>>, ReadError>
    requires { names.old ≡ [] }
    ensures given { Gives (λ releases. releases) result (releases_of (items_view values.now)) }
    ensures named { IfOk result (λ releases. names.new ≡ releases) }
{
    let mut releases = Items::new(alloc);
    for (place, value) in values.iter().enumerate() {
        match new_name_of(alloc, LONGEST_RELEASE, "", names, value) {
            Err(error) => return Err(within(alloc, RELEASES, place, error)),
            Ok(name) => releases.push(name)?,
        }
    }
    Ok(releases)
}

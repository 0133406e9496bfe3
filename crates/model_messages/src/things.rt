//! The things that names at keys refer to.

ghost use Rattle.std.specs.Prelude.{◌≡◌, ◌<◌, length, slice_get, IfOk, Some};
ghost use Rattle.toml.specs.View.{table_view};
ghost use Rattle.model_keys.specs.Finding.{Gives};
ghost use Rattle.model_messages.specs.Things.{thing_at};

use dist_model::Names;
use model_keys::{ReadError, reference_at};
use segment_defs::LONGEST_NAME;
use std::alloc::Global;
use toml::Table;

/// Things that names refer to, with a table of these names.
#[derive(Drop)]
pub struct Named<'a, T> {
    /// The things.
    pub things: &'a [T],
    /// Their names, in the same order.
    pub names: &'a Names,
}

/// The thing whose name stands at a key, and its place: Missing, Wrong, Unknown where none has the name.
#[tactic(auto, unfolding(crate::specs::Things::thing_at))]
pub(crate) fn thing_at<'t, T>(
    alloc: Global,
    key: &str,
    named: &Named<'t, T>,
    table: &Table,
) -> Result<(usize, &'t T), ReadError>
    requires { length named.now.names.now ≡ length named.now.things.now }
    ensures given { Gives (λ thing. (thing.0, thing.1.now)) result
        (thing_at key.now named.now.names.now named.now.things.now (table_view table.now)) }
    ensures here { IfOk result (λ thing. slice_get named.now.things.now thing.0 ≡ Some thing.1.now) }
    ensures within { IfOk result (λ thing. thing.0 < length named.now.things.now) }
{
    let place = reference_at(alloc, LONGEST_NAME, key, named.names, table)?;
    Ok((place, &named.things[place]))
}

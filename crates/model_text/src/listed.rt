//! Things with the table of their names, as the sections are read.

ghost use Rattle.std.specs.Prelude.{◌≡◌};

use ale_base::Items;
use dist_model::Names;
use model_messages::Named;

/// Things with the table of their names. Each section is read into one by a function of its own: what holds several has
/// few ways out, at each of which they are dropped.
#[derive(Drop)]
pub(crate) struct Listed<T> {
    pub(crate) things: Items<T>,
    pub(crate) names: Names,
}

/// Things with the table of their names, by reference.
pub(crate) fn as_named<T>(listed: &Listed<T>) -> Named<'_, T>
    ensures things { result.things.now ≡ listed.now.things }
    ensures names { result.names.now ≡ listed.now.names }
{
    Named {
        things: listed.things.as_slice(),
        names: &listed.names,
    }
}

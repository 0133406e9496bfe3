//! With what a drain began.

ghost use Rattle.std.specs.Prelude.{◌≡◌};

use ale_volumes::Volumes;
use landscape::Landscape;
use std::snapshot::Snapshot;
use unit_works::Wires;

/// The landscape and the letters with which a drain began, as contracts see them. It has no bytes.
#[derive(Drop)]
pub struct Began<V: Volumes> {
    pub(crate) landscape: Snapshot<Landscape<V>>,
    pub(crate) wires: Snapshot<Wires>,
}

impl<V: Volumes> Began<V> {
    ghost use Rattle.std.specs.Prelude.{◌≡◌};

    /// A drain begins with these.
    pub(crate) fn of(landscape: &Landscape<V>, wires: &Wires) -> Began<V>
        ensures landscape { result.landscape.value ≡ landscape.now }
        ensures wires { result.wires.value ≡ wires.now }
    {
        Began {
            landscape: Snapshot::of(landscape),
            wires: Snapshot::of(wires),
        }
    }
}

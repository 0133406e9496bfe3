//! What a run works on.

use ale_volumes::Volumes;
use landscape::Landscape;
use unit_works::Wires;

/// What a run works on: the systems, and what becomes of the shipments of their units.
#[derive(Drop)]
pub struct Stage<V: Volumes> {
    /// The systems.
    pub landscape: Landscape<V>,
    /// The letters that are left of units.
    pub wires: Wires,
}

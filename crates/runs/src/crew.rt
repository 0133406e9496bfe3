//! Who works in a drain.

ghost use Rattle.std.specs.Prelude.{◌≤◌};

/// Who works in a drain: so many dialog workers, from 1 to 16, which pass a gate before each work.
#[derive(Drop)]
pub struct Crew<'a, R, G> {
    /// What starts them.
    pub rt: &'a R,
    /// The gate.
    pub gate: &'a G,
    /// How many they are.
    pub workers: u8,
    ghost some: { (1 ≤ workers) × (workers ≤ 16) },
}

//! A system of the landscape.

use ale_base::{Fixed, Items};

/// A system of the landscape. Its number is one more than its place among the systems of the model. `IsSystem` says which
/// rules it keeps.
#[derive(Drop)]
pub struct System {
    /// The name, from 1 to 10 letters, digits, `_` and `/`.
    pub name: Items<u8>,
    /// The client, three digits, which stands in the control records of what the system sends.
    pub client: [u8; 3],
    /// The functions that it executes.
    pub functions: Items<Fixed<30>>,
}

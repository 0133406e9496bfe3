//! A command of a script.

use crate::Form;

/// A command, and where it is written.
#[derive(Drop)]
pub struct Command {
    /// The number of its line, counted from 1.
    pub line: u32,
    /// What it asks for.
    pub form: Form,
}

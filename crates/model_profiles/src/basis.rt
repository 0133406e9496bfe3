//! What the profiles of what is sent refer to.

use dist_model::{Message, Names, Reduced};
use segment_defs::{Definitions, IdocType};

/// The parts of a model that profiles of what is sent refer to, with tables of their names.
#[derive(Clone, Copy)]
pub struct Basis<'m> {
    /// The names of the releases.
    pub releases: &'m Names,
    /// The names of the systems.
    pub systems: &'m Names,
    /// The names of the segment types.
    pub types: &'m Names,
    /// The segment types.
    pub definitions: &'m Definitions,
    /// The IDoc types.
    pub idoc_types: &'m [IdocType],
    /// The message types.
    pub messages: &'m [Message],
    /// Their names.
    pub message_names: &'m Names,
    /// The reduced message types.
    pub reduced: &'m [Reduced],
    /// The names of the message types, and behind them those of the reduced ones.
    pub all_names: &'m Names,
}

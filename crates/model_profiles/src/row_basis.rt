//! What rows refer to.

use dist_model::{Filter, Names};
use segment_defs::Definitions;
use std::marker::Model;

/// The parts of a model that rows refer to. There are not more of each than a model may have, and the definitions keep their rules.
/// Contracts see the parts.
#[derive(Drop)]
pub(crate) struct RowBasis<'m> {
    /// The names of the systems.
    pub(crate) systems: &'m Names,
    /// The segment types.
    pub(crate) definitions: &'m Definitions,
    /// The names of the message types.
    pub(crate) messages: &'m Names,
    /// The filters of all message types.
    pub(crate) filters: &'m [Filter],
}

impl<'m> Model for RowBasis<'m> {
    ghost use Rattle.model_profiles.specs.Referred.{Referred, IsReferred};

    ghost Value = { Referred };

    ghost view = { λ a. record { systems = a.systems.now; definitions = a.definitions.now; messages = a.messages.now; filters = a.filters.now } };

    ghost invariant = { λ a. IsReferred (record { systems = a.systems.now; definitions = a.definitions.now; messages = a.messages.now; filters = a.filters.now }) };
}

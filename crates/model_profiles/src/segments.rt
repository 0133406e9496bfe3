//! Segment types with a table of their names.

use dist_model::Names;
use segment_defs::Definitions;
use std::marker::Model;

/// The segment types of a model, with a table of their names. The definitions keep their rules, and each type has its name. Contracts
/// see both.
#[derive(Drop)]
pub(crate) struct NamedSegments<'m> {
    pub(crate) types: &'m Names,
    pub(crate) definitions: &'m Definitions,
}

impl<'m> Model for NamedSegments<'m> {
    ghost use Rattle.model_profiles.specs.Referred.{Segments, AreSegments};

    ghost Value = { Segments };

    ghost view = { λ a. record { types = a.types.now; definitions = a.definitions.now } };

    ghost invariant = { λ a. AreSegments (record { types = a.types.now; definitions = a.definitions.now }) };
}

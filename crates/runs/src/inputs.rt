//! What a run has from its files, beside its commands.

use ale_base::{Items, SystemNo};
use dist_model::Model;
use std::sync::Arc;
use unit_core::RawUnitDoc;

/// What a run has from its files: the model, by which systems are named, and the masters that may be sent.
#[derive(Drop)]
pub struct Inputs {
    /// The model with which the systems began. The names of systems never change.
    pub model: Arc<Model>,
    /// The documents of the document file, in its order.
    pub masters: Items<RawUnitDoc>,
}

impl Inputs {
    ghost use Rattle.std.specs.Prelude.{◌≡◌};
    ghost use Rattle.std.specs.Arc.{arc_value};
    ghost use Rattle.std.specs.Option.{option_copied};
    ghost use Rattle.dist_model.specs.Model.{system_named};
    ghost use Rattle.runs.specs.Does.{numbered};

    /// The system of a name.
    pub(crate) fn system(&self, name: &[u8]) -> Option<SystemNo>
        ensures { result ≡ system_named name.now (arc_value self.now.model) }
    {
        self.model.system(name)
    }

    /// The master of a number, from 1.
    pub(crate) fn master(&self, number: u64) -> Option<&RawUnitDoc>
        ensures { option_copied result ≡ numbered number self.now.masters }
    {
        if number == 0 {
            return None;
        }
        self.masters.get(number as usize - 1)
    }
}

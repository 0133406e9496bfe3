//! Texts that were read, with their models.

ghost use Rattle.std.specs.Prelude.{◌≡◌, IfOk};
ghost use Rattle.std.specs.Arc.{arc_value};
ghost use Rattle.std.specs.Option.{option_map};
ghost use Rattle.said_models.specs.Said.{said};

use ale_base::OutOfMemory;
use dist_model::Model;
use model_text::{ModelFault, read};
use std::alloc::Global;
use std::collections::BTreeMap;
use std::sync::Arc;

/// Texts that were read, each once, with the models that they say. A look takes time as the logarithm of their number.
#[derive(Drop)]
pub struct Readings {
    models: BTreeMap<Vec<u8>, Arc<Model>>,
}

impl std::marker::Model for Readings {
    ghost use Rattle.std.specs.Prelude.{ℕ, List, map};
    ghost use Rattle.std.specs.Arc.{arc_value};
    ghost use Rattle.dist_model.specs.declared.lists.Lists.{Lists};
    ghost use Rattle.said_models.specs.Readings.{Reading, AreReadings};

    ghost Value = { List Reading };

    ghost view = { λ all. map (λ entry. record { text = entry.0.items; model = arc_value entry.1 }) all.models.entries };

    ghost invariant = { λ all. AreReadings (map (λ entry. record { text = entry.0.items; model = arc_value entry.1 }) all.models.entries) };
}

impl Readings {
    ghost use Rattle.std.specs.Prelude.{◌≡◌, [], Some, IfOk, IfSome, OnOk, OnErr};
    ghost use Rattle.std.specs.Arc.{arc_value};
    ghost use Rattle.std.specs.Option.{option_map, option_copied};
    ghost use Rattle.said_models.specs.Readings.{IsAmong, Stay};
    ghost use Rattle.said_models.specs.Said.{said};

    /// No text was read. It takes no memory.
    pub fn new(alloc: Global) -> Readings
        ensures { result ≡ [] }
    {
        Readings {
            models: BTreeMap::new(alloc),
        }
    }

    /// Enters a text that was read, with the model that it says. What was entered before stays. After an `Err` nothing has
    /// changed.
    pub fn enter(
        &mut self,
        alloc: Global,
        text: &[u8],
        model: Arc<Model>,
    ) -> Result<(), OutOfMemory>
        requires { said text.now ≡ Some (arc_value model) }
        ensures entered { OnOk result (IsAmong self.new text.now (arc_value model)) }
        ensures stay { Stay self.old self.new }
        ensures err { OnErr result (self.new ≡ self.old) }
    {
        let text = Vec::from_slice(alloc, text)?;
        self.models.insert(text, model)?;
        Ok(())
    }

    /// The model that a text says. None exactly where it says none. A text that says one is read once, and then entered.
    pub fn model(&mut self, alloc: Global, text: &[u8]) -> Result<Option<Arc<Model>>, OutOfMemory>
        ensures said { IfOk result (λ model. option_map arc_value model ≡ said text.now) }
        ensures entered { IfOk result (λ model. IfSome model (λ found. IsAmong self.new text.now (arc_value found))) }
        ensures stay { Stay self.old self.new }
    {
        if let Some(model) = self.entered(text) {
            return Ok(Some(Arc::try_clone(model)?));
        }
        let Some(model) = model_said(alloc, text)? else {
            return Ok(None);
        };
        self.enter(alloc, text, Arc::try_clone(&model)?)?;
        Ok(Some(model))
    }

    /// The model that was entered with a text.
    fn entered(&self, text: &[u8]) -> Option<&Arc<Model>>
        ensures said { IfSome (option_copied result) (λ model. said text.now ≡ Some (arc_value model)) }
        ensures among { IfSome (option_copied result) (λ model. IsAmong self.now text.now (arc_value model)) }
    {
        self.models.get(text)
    }
}

/// The model that a text says, as it is read.
#[tactic(auto, unfolding(crate::specs::Said::said))]
fn model_said(alloc: Global, text: &[u8]) -> Result<Option<Arc<Model>>, OutOfMemory>
    ensures { IfOk result (λ model. option_map arc_value model ≡ said text.now) }
{
    match read(alloc, text) {
        Ok(model) => Ok(Some(Arc::new(alloc, model)?)),
        Err(ModelFault::OutOfMemory) => Err(OutOfMemory),
        Err(_) => Ok(None),
    }
}

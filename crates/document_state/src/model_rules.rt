//! The rules of a landscape that works by distribution models.

ghost use Rattle.std.specs.Prelude.{◌≤◌};

use crate::allowing::is_allowed;
use ale_base::{Fixed, OutOfMemory, SystemNo};
use said_models::Readings;
use std::alloc::Global;
use trfc_protocol::Rules;
use unit_core::{AleUnit, Record};

/// The rules of a landscape of so many systems that work by the models which their logs name. A log is read from its first record
/// for each answer: a running landscape has tables, and asks these rules for nothing of a log that grows.
#[derive(Drop)]
pub struct ModelRules {
    /// How many systems there are.
    pub systems: u8,
    pub ghost least: { 1 ≤ systems },
    pub ghost most: { systems ≤ 16 },
}

impl ModelRules {
    ghost use Rattle.std.specs.Prelude.{◌≡◌, ◌≤◌};

    /// The rules of a landscape of so many systems, 1 to 16.
    pub fn new(systems: u8) -> ModelRules
        requires least { 1 ≤ systems }
        requires most { systems ≤ 16 }
        ensures { result.systems ≡ systems }
    {
        ModelRules { systems }
    }
}

impl Rules for ModelRules {
    ghost use Rattle.document_state.specs.Meaning.{model_meaning};
    ghost use Rattle.document_state.specs.LawfulLemmas.{lawful};

    ghost meaning = { λ rules. model_meaning rules.systems };

    ghost lawful = { λ rules. lawful rules.systems rules.least rules.most };

    fn systems(&self) -> u8 {
        self.systems
    }

    fn units(
        &self,
        alloc: Global,
        system: SystemNo,
        log: &[Record],
    ) -> Result<Vec<AleUnit>, OutOfMemory> {
        let replay = self.replayed(alloc, system, log)?;
        Ok(replay.units.into_vec())
    }

    fn allows(
        &self,
        alloc: Global,
        system: SystemNo,
        log: &[Record],
        next: &Record,
    ) -> Result<bool, OutOfMemory> {
        if log.is_empty() {
            // No model is in force yet.
            return Ok(false);
        }
        let replay = self.replayed(alloc, system, log)?;
        is_allowed(
            alloc,
            &replay.tables,
            &mut Readings::new(alloc),
            self.systems,
            system,
            next,
        )
    }

    fn offers(
        &self,
        alloc: Global,
        system: SystemNo,
        log: &[Record],
        function: &Fixed<30>,
    ) -> Result<bool, OutOfMemory> {
        let replay = self.replayed(alloc, system, log)?;
        Ok(replay.tables.offers(system, function))
    }
}

//! The suite of cases of totals that are read without the lock.

use crate::asked::{Stored, read_asked};
use ale_base::{Items, OutOfMemory};
use case_form::{CaseFault, Item, Outcome, Step, Suite, Texts, read_items};
use std::alloc::Global;

/// What comes of what an item asks for.
pub(crate) type Scenes = Box<dyn Fn(Stored) -> Result<Vec<u8>, OutOfMemory>>;

/// Scenes of writers and readers. They are played by a closure that is given, since a store takes the program's handle.
#[derive(Drop)]
pub(crate) struct MonitorCases {
    pub(crate) scenes: Scenes,
    ghost callable: { Scenes.IsAlwaysCallable scenes },
}

impl Suite for MonitorCases {
    fn outcome(
        &self,
        alloc: Global,
        _texts: &Texts,
        file: &str,
        bytes: &[u8],
    ) -> Result<Outcome, OutOfMemory> {
        match read_items(alloc, file, bytes) {
            Ok(items) => Outcome::of(self.steps_of(alloc, items.as_slice())),
            Err(fault) => Outcome::of(Err(fault)),
        }
    }
}

impl MonitorCases {
    /// The steps of a case, one an item.
    fn steps_of(&self, alloc: Global, items: &[Item]) -> Result<Items<Step>, CaseFault> {
        let mut steps = Items::new(alloc);
        for item in items {
            let asked = read_asked(item).map_err(|end| end.at(item.line))?;
            let found = (self.scenes)(asked)?;
            steps.push(Step::of(alloc, item, found)?)?;
        }
        Ok(steps)
    }
}

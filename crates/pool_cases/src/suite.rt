//! The suite of cases of the pool.

use crate::run::{Run, read_run};
use ale_base::{Items, OutOfMemory};
use case_form::{CaseFault, Item, Outcome, Step, Suite, Texts, read_items};
use std::alloc::Global;

/// Lets a pool run, and tells what came of it.
pub(crate) type Pools = Box<dyn Fn(Run) -> Result<Vec<u8>, OutOfMemory>>;

/// Pools over fake desks. They are run by a closure that is given, since threads are had from the program's handle alone.
#[derive(Drop)]
pub(crate) struct PoolCases {
    pub(crate) pools: Pools,
    ghost callable: { Pools.IsAlwaysCallable pools },
}

impl Suite for PoolCases {
    fn outcome(
        &self,
        alloc: Global,
        _texts: &Texts,
        file: &str,
        bytes: &[u8],
    ) -> Result<Outcome, OutOfMemory> {
        match read_items(alloc, file, bytes) {
            Ok(items) => Outcome::of(self.steps_of(alloc, items.as_slice())),
            Err(fault) => Outcome::of(Err(fault)),
        }
    }
}

impl PoolCases {
    /// The steps of a case: pools that run one after the other, each over a fake desk of its own.
    fn steps_of(&self, alloc: Global, items: &[Item]) -> Result<Items<Step>, CaseFault> {
        let mut steps = Items::new(alloc);
        for item in items {
            let run = read_run(item).map_err(|end| end.at(item.line))?;
            let found = (self.pools)(run)?;
            steps.push(Step::of(alloc, item, found)?)?;
        }
        Ok(steps)
    }
}

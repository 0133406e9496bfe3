//! The suite of these cases.

use crate::call_end::{Broken, CallEnd, StepsEnd};
use crate::outside::{Adapters, found};
use crate::pieces::WhyUnread;
use crate::volumes::RealVolumes;
use ale_base::{Items, OutOfMemory};
use ale_os::StdSink;
use case_form::{CaseFault, Item, Outcome, Step, Suite, Texts, read_items};
use std::alloc::Global;
use std::rt::{Clock, Files};

/// Makes the steps of a case.
pub(crate) type CarryOut = Box<dyn Fn(Vec<Item>) -> Result<Items<Step>, StepsEnd>>;

/// The adapters over the operating system. They are made by a closure that is given, since files are had from the program's
/// handle alone.
#[derive(Drop)]
pub(crate) struct OsCases {
    pub(crate) carry_out: CarryOut,
    ghost callable: { CarryOut.IsAlwaysCallable carry_out },
}

impl Suite for OsCases {
    fn outcome(
        &self,
        alloc: Global,
        _texts: &Texts,
        file: &str,
        bytes: &[u8],
    ) -> Result<Outcome, OutOfMemory> {
        match read_items(alloc, file, bytes) {
            Ok(items) => Outcome::of((self.carry_out)(items).map_err(|end| end.told())),
            Err(fault) => Outcome::of(Err(fault)),
        }
    }
}

/// The steps of a case: calls one after the other, on adapters on which nothing was called.
pub(crate) fn steps_of<
    R: Files + Clock + AllocGlobal,
    F: ale_io::Files + WhyUnread + Drop,
    V: RealVolumes + Drop,
>(
    rt: &R,
    alloc: Global,
    adapters: Adapters<F, V>,
    items: &[Item],
) -> Result<Items<Step>, StepsEnd> {
    let mut adapters = adapters;
    let mut sink = StdSink::new(Vec::new(alloc));
    let mut steps = Items::new(alloc);
    for item in items {
        let end = step_of(rt, alloc, &mut adapters, &mut sink, item);
        let step = end.map_err(|end| end.at(item.line))?;
        steps.push(step).map_err(|_| StepsEnd::OutOfMemory)?;
    }
    Ok(steps)
}

/// The step of an item.
fn step_of<R: Files + Clock + AllocGlobal, F: ale_io::Files + WhyUnread, V: RealVolumes + Drop>(
    rt: &R,
    alloc: Global,
    adapters: &mut Adapters<F, V>,
    sink: &mut StdSink<Vec<u8>>,
    item: &Item,
) -> Result<Step, CallEnd> {
    let found = found(rt, alloc, adapters, sink, item)?;
    match Step::of(alloc, item, found) {
        Ok(step) => Ok(step),
        Err(CaseFault::Malformed { .. }) => Err(Broken::Form.into()),
        Err(CaseFault::OutOfMemory) => Err(CallEnd::OutOfMemory),
    }
}

//! What a volume in memory held after some steps of its record.

ghost use Rattle.std.specs.Prelude.{◌≡◌, ◌++◌, ◌↔◌, fold, IfOk, OnOk, OnErr, IsTrue};
ghost use Rattle.ale_volumes.specs.declared.step.Step.TheVariants.{Sync};
ghost use Rattle.ale_volumes.specs.Memory.{contents_after_step, EndsAtSync};

use crate::Step;
use crate::overwrite::write_over;
use crate::volume::copy_of;
use ale_base::{Items, OutOfMemory};
use std::alloc::Global;

/// What a read of volume `n` gives after these steps, if it gave these bytes before them.
pub(crate) fn contents_after(
    alloc: Global,
    start: &[u8],
    n: u8,
    steps: &[Step],
) -> Result<Items<u8>, OutOfMemory>
    ensures { IfOk result (λ held. held ≡ fold (contents_after_step n) start.now steps.now) }
{
    let mut held = copy_of(alloc, start)?;
    for step in steps {
        apply(alloc, &mut held, n, step)?;
    }
    Ok(held)
}

/// The steps up to the last sync of volume `n`, and those since.
pub(crate) fn at_last_sync(steps: &[Step], n: u8) -> (&[Step], &[Step])
    ensures whole { steps.now ≡ result.0.now ++ result.1.now }
    ensures synced { EndsAtSync n result.0.now }
{
    let mut count = 0;
    for (i, step) in steps.iter().enumerate() {
        if is_sync_of(step, n) {
            count = i + 1;
        }
    }
    steps.split_at(count)
}

/// Changes what a read of volume `n` gives, as a step did.
fn apply(alloc: Global, held: &mut Items<u8>, n: u8, step: &Step) -> Result<(), OutOfMemory>
    ensures ok { OnOk result (held.new ≡ contents_after_step n held.old step.now) }
    ensures err { OnErr result (held.new ≡ held.old) }
{
    match step {
        Step::Write {
            volume,
            at,
            bytes,
            failed,
        } if *volume == n => write_over(alloc, held, *at as usize, bytes.as_slice(), *failed),
        _ => Ok(()),
    }
}

/// Whether a step is a sync of volume `n`.
fn is_sync_of(step: &Step, n: u8) -> bool
    ensures { IsTrue result ↔ (step.now ≡ Sync n) }
{
    match step {
        Step::Sync { volume } => *volume == n,
        Step::Write { .. } => false,
    }
}

//! Units that are offered are claimed, with what they are prepared from.

ghost use Rattle.std.specs.Prelude.{◌≡◌, IfOk, IfSome, IsNone};
ghost use Rattle.std.specs.Result.{is_ok};
ghost use Rattle.unit_works.specs.Drained.{IsIdle};
ghost use Rattle.unit_works.specs.Worked.{NothingIn, NothingOut};
ghost use Rattle.unit_works.specs.steps.Rounds.{NothingAt, NothingTo};
ghost use Rattle.drain_desk.specs.Work.{IsBasis};
ghost use Rattle.drain_desk.specs.steps.Claiming.{Claims, IsBusy, IsOffer};

use crate::work::{Basis, Task};
use ale_base::{OutOfMemory, SystemNo, Tid};
use ale_volumes::Volumes;
use landscape::Landscape;
use std::sync::Arc;
use unit_works::{claim_to_execute, claim_to_ship};

/// A task, and what it is prepared from.
#[derive(Drop)]
pub(crate) struct Offer {
    pub(crate) task: Task,
    pub(crate) basis: Option<Basis>,
}

/// Claims the first unit that is offered, by the numbers of the systems, outbound before inbound. None exactly where none is offered at any
/// system, and then nothing has changed. After an `Err` a unit may be claimed.
pub(crate) fn claim_any<V: Volumes>(
    landscape: &mut Landscape<V>,
) -> Result<Option<Offer>, OutOfMemory>
    ensures claims { Claims V.disk landscape.old landscape.new (is_ok result) }
    ensures offer { IfOk result (λ found. IfSome found (IsOffer landscape.new.world)) }
    ensures none { IfOk result (λ found. IsNone found → (landscape.new ≡ landscape.old) × IsIdle landscape.old.world) }
    ensures busy { IfOk result (λ found. IfSome found (λ offer. IsBusy landscape.old.world)) }
{
    let found = claim_first(landscape)?;
    let _ = landscape.world();
    Ok(found)
}

/// Claims the first unit that is offered at the first system at which one is. None exactly where none is offered at any.
fn claim_first<V: Volumes>(landscape: &mut Landscape<V>) -> Result<Option<Offer>, OutOfMemory>
    ensures claims { Claims V.disk landscape.old landscape.new (is_ok result) }
    ensures offer { IfOk result (λ found. IfSome found (IsOffer landscape.new.world)) }
    ensures none { IfOk result (λ found. IsNone found → (landscape.new ≡ landscape.old) × NothingTo landscape.old.world 16) }
    ensures busy { IfOk result (λ found. IfSome found (λ offer. IsBusy landscape.old.world)) }
{
    for number in 0..SystemNo::MAX {
        let Some(system) = SystemNo::of(number + 1) else {
            // Each number from 1 to 16 is that of a system.
            unreachable!()
        };
        match claim_at(landscape, system)? {
            None => {}
            Some(offer) => return Ok(Some(offer)),
        }
    }
    Ok(None)
}

/// Claims the first unit that is offered at a system, outbound before inbound.
fn claim_at<V: Volumes>(
    landscape: &mut Landscape<V>,
    system: SystemNo,
) -> Result<Option<Offer>, OutOfMemory>
    ensures claims { Claims V.disk landscape.old landscape.new (is_ok result) }
    ensures offer { IfOk result (λ found. IfSome found (IsOffer landscape.new.world)) }
    ensures none { IfOk result (λ found. IsNone found → (landscape.new ≡ landscape.old) × NothingAt landscape.old.world system) }
    ensures busy { IfOk result (λ found. IfSome found (λ offer. IsBusy landscape.old.world)) }
{
    match claim_out(landscape, system)? {
        Some(offer) => Ok(Some(offer)),
        None => claim_in(landscape, system),
    }
}

/// Claims the first unit that is offered outbound at a system. What is prepared of it is for a unit that its receiver runs as it arrives.
fn claim_out<V: Volumes>(
    landscape: &mut Landscape<V>,
    system: SystemNo,
) -> Result<Option<Offer>, OutOfMemory>
    ensures claims { Claims V.disk landscape.old landscape.new (is_ok result) }
    ensures offer { IfOk result (λ found. IfSome found (IsOffer landscape.new.world)) }
    ensures none { IfOk result (λ found. IsNone found → (landscape.new ≡ landscape.old) × NothingOut landscape.old.world system) }
    ensures busy { IfOk result (λ found. IfSome found (λ offer. IsBusy landscape.old.world)) }
{
    let _ = landscape.world();
    match claim_to_ship(landscape, system)? {
        None => Ok(None),
        Some(claim) => {
            let basis = basis_of_run(landscape, claim.tid())?;
            Ok(Some(Offer {
                task: Task::Ship(claim),
                basis,
            }))
        }
    }
}

/// Claims the first unit that is offered inbound at a system.
fn claim_in<V: Volumes>(
    landscape: &mut Landscape<V>,
    system: SystemNo,
) -> Result<Option<Offer>, OutOfMemory>
    ensures claims { Claims V.disk landscape.old landscape.new (is_ok result) }
    ensures offer { IfOk result (λ found. IfSome found (IsOffer landscape.new.world)) }
    ensures none { IfOk result (λ found. IsNone found → (landscape.new ≡ landscape.old) × NothingIn landscape.old.world system) }
    ensures busy { IfOk result (λ found. IfSome found (λ offer. IsBusy landscape.old.world)) }
{
    let _ = landscape.world();
    match claim_to_execute(landscape, system)? {
        None => Ok(None),
        Some(claim) => {
            let basis = basis_of(landscape, claim.tid())?;
            Ok(Some(Offer {
                task: Task::Execute(claim),
                basis,
            }))
        }
    }
}

/// What a unit that its receiver runs as it arrives is prepared from. None where its receiver does not, or is down.
fn basis_of_run<V: Volumes>(
    landscape: &Landscape<V>,
    tid: Tid,
) -> Result<Option<Basis>, OutOfMemory>
    ensures { IfOk result (IsBasis landscape.now.world tid) }
{
    if runs_at_once(landscape, tid) {
        basis_of(landscape, tid)
    } else {
        Ok(None)
    }
}

/// Whether a unit has no inbound queue, so that its receiver runs it as it arrives.
fn runs_at_once<V: Volumes>(landscape: &Landscape<V>, tid: Tid) -> bool {
    match landscape.unit(tid) {
        Some(unit) => unit.inq.is_empty(),
        None => false,
    }
}

/// A copy of a unit, and the model by which its receiver works. None where the receiver is down.
fn basis_of<V: Volumes>(landscape: &Landscape<V>, tid: Tid) -> Result<Option<Basis>, OutOfMemory>
    ensures { IfOk result (IsBasis landscape.now.world tid) }
{
    let _ = landscape.world();
    let Some(unit) = landscape.unit(tid) else {
        return Ok(None);
    };
    let Some(tables) = landscape.tables(unit.receiver) else {
        return Ok(None);
    };
    let Some(model) = tables.model() else {
        return Ok(None);
    };
    let model = Arc::try_clone(model)?;
    let unit = unit.clone()?;
    Ok(Some(Basis { unit, model }))
}

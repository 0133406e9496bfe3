//! A unit is delivered, and its receiver may fall behind that.

ghost use Rattle.std.specs.Prelude.{◌≡◌, ◌&&◌, Some, true, IfOk, IfSome, OnOk};
ghost use Rattle.std.specs.Option.{option_map};
ghost use Rattle.std.specs.Result.{is_ok};
ghost use Rattle.unit_core.specs.declared.ale_unit.AleUnit.{AleUnit};
ghost use Rattle.trfc_protocol.specs.Offered.{answer_to};
ghost use Rattle.trfc_protocol.specs.Worlds.{committed_unit, is_up};
ghost use Rattle.unit_landscape.specs.Calls.{stands_out};
ghost use Rattle.document_state.specs.Meaning.{model_meaning};
ghost use Rattle.landscape.specs.Working.{IsPreparedFor};
ghost use Rattle.unit_works.specs.Claims.{AreOrGone};
ghost use Rattle.unit_works.specs.Events.{falls_under, is_delivery, is_fall};
ghost use Rattle.unit_works.specs.Finished.{finished_in};
ghost use Rattle.unit_works.specs.Worked.{Worked};
ghost use Rattle.unit_works.specs.steps.Arriving.{IsAnswered};
ghost use Rattle.unit_works.specs.steps.Felling.{FellIf, HandledSo};

use crate::Letter;
use crate::answering::{Answered, deliver};
use crate::letters::falls_under;
use ale_base::{OutOfMemory, SystemNo, Tid};
use ale_volumes::Volumes;
use inbound_post::Prepared;
use landscape::Landscape;
use std::alloc::Global;
use unit_landscape::OutClaim;

/// The unit of a claim is delivered under a letter, and its receiver falls right behind that where the letter fells it.
pub(crate) fn deliver_under<V: Volumes>(
    alloc: Global,
    landscape: &mut Landscape<V>,
    claim: &OutClaim,
    letter: Letter,
    ready: Option<Prepared>,
) -> Result<Answered, OutOfMemory>
    requires stands { stands_out landscape.old.world claim.now ≡ true }
    requires ready { IfSome ready (λ prepared. IsPreparedFor landscape.old.world claim.now.tid prepared.postings) }
    ensures went { Worked V.disk landscape.old landscape.new (is_delivery letter) (is_ok result) }
    ensures answered { IfOk result (λ answered. IsAnswered landscape.old.world landscape.new.world answered.finished) }
    ensures claims { OnOk result (AreOrGone landscape.old.world landscape.new.world landscape.old.world.claims) }
    ensures grew { IfOk result (λ answered. (unit : AleUnit)
        → committed_unit (model_meaning landscape.old.world.rules.systems) landscape.old.world claim.now.tid ≡ Some unit
        → HandledSo (model_meaning landscape.new.world.rules.systems) landscape.old landscape.new claim.now unit letter
        (answer_to (model_meaning landscape.old.world.rules.systems) landscape.old.world unit) answered.given) }
{
    let _ = landscape.world();
    let answered = deliver(alloc, landscape, claim, letter, ready)?;
    fall_under(landscape, claim.tid(), letter);
    Ok(answered)
}

/// The receiver of a unit falls, where a letter fells it. Nothing changes where it is down already. It takes no memory.
fn fall_under<V: Volumes>(landscape: &mut Landscape<V>, tid: Tid, letter: Letter)
    ensures went { Worked V.disk landscape.old landscape.new (is_delivery letter) true }
    ensures finished { finished_in landscape.new.world ≡ finished_in landscape.old.world }
    ensures claims { AreOrGone landscape.old.world landscape.new.world landscape.old.world.claims }
    ensures fell { (unit : AleUnit) → committed_unit (model_meaning landscape.old.world.rules.systems) landscape.old.world tid ≡ Some unit
        → FellIf landscape.old landscape.new (falls_under letter && is_up landscape.old.world unit.receiver) unit.receiver }
{
    let _ = landscape.world();
    if !falls_under(letter) {
        return;
    }
    match receiver_of(landscape, tid) {
        Some(receiver) => fall(landscape, receiver),
        None => {}
    }
}

/// The receiver of the unit of an id. None exactly where no system committed one.
fn receiver_of<V: Volumes>(landscape: &Landscape<V>, tid: Tid) -> Option<SystemNo>
    ensures { result ≡ option_map (λ (unit : AleUnit). unit.receiver)
        (committed_unit (model_meaning landscape.now.world.rules.systems) landscape.now.world tid) }
{
    match landscape.unit(tid) {
        Some(unit) => Some(unit.receiver),
        None => None,
    }
}

/// A system falls, though nothing of it fails. Nothing changes where it is down already. It takes no memory.
fn fall<V: Volumes>(landscape: &mut Landscape<V>, system: SystemNo)
    ensures went { Worked V.disk landscape.old landscape.new is_fall true }
    ensures finished { finished_in landscape.new.world ≡ finished_in landscape.old.world }
    ensures claims { AreOrGone landscape.old.world landscape.new.world landscape.old.world.claims }
    ensures fell { FellIf landscape.old landscape.new (is_up landscape.old.world system) system }
{
    let _ = landscape.world();
    landscape.crash(system);
}

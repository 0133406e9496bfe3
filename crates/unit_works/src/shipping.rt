//! Units are claimed and shipped.

ghost use Rattle.std.specs.Prelude.{◌≡◌, Some, true, IsNone, IfOk, IfSome, OnErr, OnOk};
ghost use Rattle.std.specs.Result.{is_ok};
ghost use Rattle.unit_core.specs.declared.ale_unit.AleUnit.{AleUnit};
ghost use Rattle.trfc_protocol.specs.Offered.{answer_to};
ghost use Rattle.trfc_protocol.specs.Worlds.{committed_unit, without_claim};
ghost use Rattle.unit_landscape.specs.Calls.{stands_out};
ghost use Rattle.document_state.specs.Meaning.{model_meaning};
ghost use Rattle.landscape.specs.Working.{IsPreparedFor};
ghost use Rattle.unit_works.specs.Claims.{AreOrGone};
ghost use Rattle.unit_works.specs.Events.{is_claim, is_shipping};
ghost use Rattle.unit_works.specs.Finished.{finished_in};
ghost use Rattle.unit_works.specs.Trips.{Shipped};
ghost use Rattle.unit_works.specs.Worked.{HaveOnlyClaimed, NothingOut, Worked};
ghost use Rattle.unit_works.specs.Works.{ClaimShippedAs, ShippedAs};
ghost use Rattle.unit_works.specs.steps.Arriving.{IsAnswered};
ghost use Rattle.unit_works.specs.Claiming.{IsShipped};

use crate::answering::{Answered, reply};
use crate::confirming::confirm_under;
use crate::felling::deliver_under;
use crate::letters::told_under;
use crate::{Letter, Wires};
use ale_base::{OutOfMemory, SystemNo};
use ale_volumes::Volumes;
use inbound_post::Prepared;
use landscape::Landscape;
use std::alloc::Global;
use unit_landscape::{OutClaim, Reply};

/// Claims the first unit that is offered outbound at a system, and ships it under its next letter: it arrives, and a run of it ends; its
/// sender learns of the answer; and where it is done then, it is confirmed. The logs grow by exactly the records of that, one after the
/// other, as the receiver would answer before; where a system falls as it is to append one of them, those before it stand, and none behind
/// it; and where the letter fells the receiver, it falls behind those that it appends. How many runs ended. None exactly where nothing is offered there or the system is down, and then nothing has changed. After an `Err`
/// a part of it may have happened.
pub fn ship_next<V: Volumes>(
    alloc: Global,
    landscape: &mut Landscape<V>,
    wires: &mut Wires,
    system: SystemNo,
) -> Result<Option<u64>, OutOfMemory>
    ensures { ShippedAs V.disk landscape.old landscape.new wires.old wires.new system result }
{
    let Some(claim) = claim_to_ship(landscape, system)? else {
        return Ok(None);
    };
    let letter = wires.take(claim.tid());
    let finished = ship(alloc, landscape, claim, letter, None)?;
    Ok(Some(finished))
}

/// Claims the first unit that is offered outbound at a system, to be shipped by [`ship_claimed`]. None exactly where nothing is offered
/// there or the system is down. Nothing else changes; after an `Err` nothing has.
pub fn claim_to_ship<V: Volumes>(
    landscape: &mut Landscape<V>,
    system: SystemNo,
) -> Result<Option<OutClaim>, OutOfMemory>
    ensures went { Worked V.disk landscape.old landscape.new is_claim (is_ok result) }
    ensures finished { finished_in landscape.new.world ≡ finished_in landscape.old.world }
    ensures none { IfOk result (λ found. IsNone found → (landscape.new ≡ landscape.old) × NothingOut landscape.old.world system) }
    ensures claim { IfOk result (λ found. IfSome found
        (IsShipped (model_meaning landscape.old.world.rules.systems) landscape.old.world landscape.new.world system)) }
    ensures only { HaveOnlyClaimed landscape.old landscape.new }
    ensures err { OnErr result (landscape.new ≡ landscape.old) }
{
    let _ = landscape.world();
    landscape.claim_out(system)
}

/// Ships the unit of a claim under its next letter, as [`ship_next`] does. Where the receiver runs it as it arrives, the run takes what was
/// prepared of its documents; what was not is prepared then. How many runs ended. None exactly where the claim does not stand, and then
/// nothing has changed. After an `Err` a part of it may have happened.
pub fn ship_claimed<V: Volumes>(
    alloc: Global,
    landscape: &mut Landscape<V>,
    wires: &mut Wires,
    claim: OutClaim,
    ready: Option<Prepared>,
) -> Result<Option<u64>, OutOfMemory>
    requires ready { IfSome ready (λ prepared. IsPreparedFor landscape.old.world claim.tid prepared.postings) }
    ensures { ClaimShippedAs V.disk landscape.old landscape.new wires.old wires.new claim result }
{
    let _ = landscape.world();
    if !landscape.holds(&claim) {
        return Ok(None);
    }
    let letter = wires.take(claim.tid());
    let finished = ship(alloc, landscape, claim, letter, ready)?;
    Ok(Some(finished))
}

/// Ships the unit of a claim under a letter. How many runs ended.
fn ship<V: Volumes>(
    alloc: Global,
    landscape: &mut Landscape<V>,
    claim: OutClaim,
    letter: Letter,
    ready: Option<Prepared>,
) -> Result<u64, OutOfMemory>
    requires stands { stands_out landscape.old.world claim ≡ true }
    requires ready { IfSome ready (λ prepared. IsPreparedFor landscape.old.world claim.tid prepared.postings) }
    ensures went { Worked V.disk landscape.old landscape.new (is_shipping letter) (is_ok result) }
    ensures finished { IfOk result (IsAnswered landscape.old.world landscape.new.world) }
    ensures left { OnOk result (AreOrGone landscape.old.world landscape.new.world (without_claim landscape.old.world claim.number).claims) }
    ensures grew { (unit : AleUnit) → committed_unit (model_meaning landscape.old.world.rules.systems) landscape.old.world claim.tid ≡ Some unit
        → OnOk result (Shipped landscape.old landscape.new letter
        (answer_to (model_meaning landscape.old.world.rules.systems) landscape.old.world unit) unit) }
{
    let _ = landscape.world();
    let tid = claim.tid();
    let answered = deliver_under(alloc, landscape, &claim, letter, ready)?;
    let Answered { given, finished } = answered;
    let told = told_under(letter, given);
    reply(landscape, claim, told)?;
    confirm_under(landscape, tid, letter)?;
    Ok(finished)
}

//! A shipment is answered: a run that it began ends, and what its receiver replies comes to its claim.

ghost use Rattle.std.specs.Prelude.{◌≡◌, ◌≤◌, ◌+◌, List, Option, Some, true, false, IfOk, IfSome, OnOk};
ghost use Rattle.std.specs.Result.{is_ok};
ghost use Rattle.ale_base.specs.Tid.{TidOf};
ghost use Rattle.unit_core.specs.declared.ale_unit.AleUnit.{AleUnit};
ghost use Rattle.trfc_protocol.specs.declared.answer.Answer.{Answer};
ghost use Rattle.trfc_protocol.specs.declared.event.CoreAnswer.{CoreAnswer};
ghost use Rattle.trfc_protocol.specs.declared.event.CoreAnswer.TheVariants as core;
ghost use Rattle.trfc_protocol.specs.declared.held.Held.{Held};
ghost use Rattle.trfc_protocol.specs.declared.held.HeldKind.TheVariants.{Direct};
ghost use Rattle.trfc_protocol.specs.Offered.{answer_to};
ghost use Rattle.trfc_protocol.specs.Worlds.{committed_unit, without_claim};
ghost use Rattle.document_state.specs.Meaning.{model_meaning};
ghost use Rattle.unit_landscape.specs.declared.answers.Arrival.TheVariants.{Down};
ghost use Rattle.unit_landscape.specs.Calls.{reply_event, stands_out};
ghost use Rattle.landscape.specs.Working.{IsPreparedFor};
ghost use Rattle.unit_works.specs.Claims.{AreOrGone};
ghost use Rattle.unit_works.specs.Events.{arrives_under, is_delivery, is_end, is_reply};
ghost use Rattle.unit_works.specs.Finished.{finished_in};
ghost use Rattle.unit_works.specs.Trips.{Appended, noted_of};
ghost use Rattle.unit_works.specs.Worked.{Worked};
ghost use Rattle.unit_works.specs.steps.Arriving.{AnsweredSo, ClaimsAre, DeliveredSo, IsAnswered, IsReadyFor, Says, Tells, event_of};
ghost use Rattle.unit_works.specs.steps.Ending.{IsRun, ended_by};

use crate::Letter;
use crate::arriving::arrive_under;
use crate::ending::{ended_by, finish};
use crate::letters::arrives_under;
use ale_base::OutOfMemory;
use ale_volumes::Volumes;
use inbound_post::Prepared;
use landscape::Landscape;
use std::alloc::Global;
use unit_landscape::{Arrival, Finished, OutClaim, Reply, WorkEnd};

/// What a receiver replies, and how many runs ended before it did.
#[derive(Drop)]
pub(crate) struct Answered {
    pub(crate) given: Reply,
    pub(crate) finished: u64,
}

/// The unit of a claim is delivered under a letter: it arrives, and a run of it ends. Nothing comes back where its request is lost.
pub(crate) fn deliver<V: Volumes>(
    alloc: Global,
    landscape: &mut Landscape<V>,
    claim: &OutClaim,
    letter: Letter,
    ready: Option<Prepared>,
) -> Result<Answered, OutOfMemory>
    requires stands { stands_out landscape.old.world claim.now ≡ true }
    requires ready { IfSome ready (λ prepared. IsPreparedFor landscape.old.world claim.now.tid prepared.postings) }
    ensures went { Worked V.disk landscape.old landscape.new (is_delivery letter) (is_ok result) }
    ensures answered { IfOk result (λ answered. IsAnswered landscape.old.world landscape.new.world answered.finished) }
    ensures claims { OnOk result (AreOrGone landscape.old.world landscape.new.world landscape.old.world.claims) }
    ensures grew { IfOk result (λ answered. (unit : AleUnit)
        → committed_unit (model_meaning landscape.old.world.rules.systems) landscape.old.world claim.now.tid ≡ Some unit
        → DeliveredSo (model_meaning landscape.new.world.rules.systems) landscape.old landscape.new claim.now unit letter
        (answer_to (model_meaning landscape.old.world.rules.systems) landscape.old.world unit) answered.given) }
{
    let _ = landscape.world();
    if !arrives_under(letter) {
        return Ok(Answered {
            given: Reply::Lost,
            finished: 0,
        });
    }
    let arrival = arrive_under(landscape, claim, letter)?;
    answer_of(alloc, landscape, arrival, ready)
}

/// What a receiver replies to an arrival, once the run that it began has ended.
fn answer_of<V: Volumes>(
    alloc: Global,
    landscape: &mut Landscape<V>,
    arrival: Arrival,
    ready: Option<Prepared>,
) -> Result<Answered, OutOfMemory>
    requires ready { IfSome ready (λ prepared. IsReadyFor landscape.old.world prepared.postings arrival) }
    ensures went { Worked V.disk landscape.old landscape.new is_end (is_ok result) }
    ensures answered { IfOk result (λ answered. IsAnswered landscape.old.world landscape.new.world answered.finished) }
    ensures claims { (others : List Held) → ClaimsAre landscape.old.world.claims others arrival
        → OnOk result (AreOrGone landscape.old.world landscape.new.world others) }
    ensures grew { (unit : AleUnit) (given : Answer) (others : List Held)
        → committed_unit (model_meaning landscape.old.world.rules.systems) landscape.old.world unit.tid ≡ Some unit → Tells given unit arrival
        → ClaimsAre landscape.old.world.claims others arrival
        → IfOk result (λ answered. AnsweredSo landscape.old landscape.new unit given others answered.given) }
    ensures idle { arrival ≡ Down → landscape.new ≡ landscape.old }
{
    match arrival {
        Arrival::New(receipt) => Ok(at_once(Reply::Done(receipt))),
        Arrival::Known(receipt) => Ok(at_once(Reply::Done(receipt))),
        Arrival::Run(claim) => {
            let finished = finish(alloc, landscape, claim, ready)?;
            Ok(after_run(finished))
        }
        Arrival::Busy => Ok(at_once(Reply::Busy)),
        Arrival::SysFail => Ok(at_once(Reply::SysFail)),
        Arrival::Down => Ok(at_once(Reply::Lost)),
    }
}

/// A reply before which no run ended.
fn at_once(given: Reply) -> Answered
    ensures count { result.finished ≡ 0 }
    ensures given { result.given ≡ given }
{
    Answered { given, finished: 0 }
}

/// What a receiver replies once a run has ended: it has the unit, or nothing comes back.
fn after_run(finished: Finished) -> Answered
    ensures count { result.finished ≡ ended_by finished }
    ensures few { result.finished ≤ 1 }
    ensures says { (tid : TidOf) → IsRun Direct tid finished → Says (Some core.Done) tid result.given }
{
    let count = ended_by(&finished);
    let given = match finished {
        Finished::Executed(receipt) => Reply::Done(receipt),
        Finished::Failed | Finished::Down => Reply::Lost,
    };
    Answered {
        given,
        finished: count,
    }
}

/// A reply comes to its claim, which is gone then.
pub(crate) fn reply<V: Volumes>(
    landscape: &mut Landscape<V>,
    claim: OutClaim,
    given: Reply,
) -> Result<(), OutOfMemory>
    ensures went { Worked V.disk landscape.old landscape.new (is_reply given) (is_ok result) }
    ensures finished { OnOk result (finished_in landscape.new.world ≡ finished_in landscape.old.world) }
    ensures left { OnOk result (stands_out landscape.old.world claim ≡ true
        → AreOrGone landscape.old.world landscape.new.world (without_claim landscape.old.world claim.number).claims) }
    ensures grew { (learnt : Option CoreAnswer) → stands_out landscape.old.world claim ≡ true
        → reply_event (model_meaning landscape.old.world.rules.systems) landscape.old.world claim given ≡ event_of learnt claim.number
        → OnOk result (Appended landscape.old landscape.new (noted_of learnt claim.tid)) }
    ensures stale { stands_out landscape.old.world claim ≡ false → OnOk result (landscape.new ≡ landscape.old) }
{
    let _ = landscape.world();
    match landscape.reply(claim, given) {
        Ok(_replied) => Ok(()),
        Err(WorkEnd::Stale) => Ok(()),
        Err(WorkEnd::OutOfMemory) => Err(OutOfMemory),
    }
}

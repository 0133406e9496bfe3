//! The work of a claim ends, with what is prepared of the documents of its unit.

ghost use Rattle.std.specs.Prelude.{◌≡◌, ◌+◌, true, false, IsNone, IfOk, IfSome, OnOk};
ghost use Rattle.std.specs.Result.{is_ok};
ghost use Rattle.trfc_protocol.specs.declared.held.Held.{Held};
ghost use Rattle.trfc_protocol.specs.Worlds.{without_claim};
ghost use Rattle.unit_landscape.specs.Appending.{HoldsIn};
ghost use Rattle.unit_landscape.specs.Calls.{stands_in};
ghost use Rattle.landscape.specs.Working.{IsPreparedFor};
ghost use Rattle.document_state.specs.Meaning.{model_meaning};
ghost use Rattle.unit_works.specs.Claims.{AreOrGone};
ghost use Rattle.unit_works.specs.Events.{is_end};
ghost use Rattle.unit_works.specs.Finished.{finished_in};
ghost use Rattle.unit_works.specs.Worked.{Worked};
ghost use Rattle.unit_works.specs.steps.Ending.{FinishedSo, IsDownFor, ended_by};

use ale_base::{OutOfMemory, Tid};
use ale_volumes::Volumes;
use inbound_post::Prepared;
use landscape::Landscape;
use std::alloc::Global;
use unit_landscape::{Finished, InClaim, WorkEnd};

/// The work of a claim ends: its unit is executed, or fails. `Down` where a system fell, so that the claim does not stand or its record
/// does not.
pub(crate) fn finish<V: Volumes>(
    alloc: Global,
    landscape: &mut Landscape<V>,
    claim: InClaim,
    ready: Option<Prepared>,
) -> Result<Finished, OutOfMemory>
    requires ready { IfSome ready (λ prepared. IsPreparedFor landscape.old.world claim.tid prepared.postings) }
    ensures went { Worked V.disk landscape.old landscape.new is_end (is_ok result) }
    ensures finished { IfOk result (λ given. finished_in landscape.new.world ≡ finished_in landscape.old.world + ended_by given) }
    ensures left { OnOk result (stands_in landscape.old.world claim ≡ true
        → AreOrGone landscape.old.world landscape.new.world (without_claim landscape.old.world claim.number).claims) }
    ensures stale { stands_in landscape.old.world claim ≡ false → OnOk result (landscape.new ≡ landscape.old) }
    ensures grew { (held : Held) → HoldsIn landscape.old.world claim held
        → IfOk result (FinishedSo (model_meaning landscape.old.world.rules.systems) landscape.old landscape.new claim held) }
{
    let tid = claim.tid();
    let finished = finish_ready(alloc, landscape, claim, ready)?;
    Ok(finished)
}

/// The work of a claim ends with what was prepared for it, or is prepared now.
fn finish_ready<V: Volumes>(
    alloc: Global,
    landscape: &mut Landscape<V>,
    claim: InClaim,
    ready: Option<Prepared>,
) -> Result<Finished, OutOfMemory>
    requires ready { IfSome ready (λ prepared. IsPreparedFor landscape.old.world claim.tid prepared.postings) }
    ensures went { Worked V.disk landscape.old landscape.new is_end (is_ok result) }
    ensures finished { IfOk result (λ given. finished_in landscape.new.world ≡ finished_in landscape.old.world + ended_by given) }
    ensures left { OnOk result (stands_in landscape.old.world claim ≡ true
        → AreOrGone landscape.old.world landscape.new.world (without_claim landscape.old.world claim.number).claims) }
    ensures stale { stands_in landscape.old.world claim ≡ false → OnOk result (landscape.new ≡ landscape.old) }
    ensures grew { (held : Held) → HoldsIn landscape.old.world claim held
        → IfOk result (FinishedSo (model_meaning landscape.old.world.rules.systems) landscape.old landscape.new claim held) }
{
    match ready {
        Some(prepared) => finish_with(landscape, claim, prepared),
        None => finish_prepared(alloc, landscape, claim),
    }
}

/// The work of a claim ends with what is prepared for it now.
fn finish_prepared<V: Volumes>(
    alloc: Global,
    landscape: &mut Landscape<V>,
    claim: InClaim,
) -> Result<Finished, OutOfMemory>
    ensures went { Worked V.disk landscape.old landscape.new is_end (is_ok result) }
    ensures finished { IfOk result (λ given. finished_in landscape.new.world ≡ finished_in landscape.old.world + ended_by given) }
    ensures left { OnOk result (stands_in landscape.old.world claim ≡ true
        → AreOrGone landscape.old.world landscape.new.world (without_claim landscape.old.world claim.number).claims) }
    ensures stale { stands_in landscape.old.world claim ≡ false → OnOk result (landscape.new ≡ landscape.old) }
    ensures grew { (held : Held) → HoldsIn landscape.old.world claim held
        → IfOk result (FinishedSo (model_meaning landscape.old.world.rules.systems) landscape.old landscape.new claim held) }
{
    match prepared_for(alloc, landscape, claim.tid())? {
        None => Ok(not_finished(landscape, claim)),
        Some(prepared) => finish_with(landscape, claim, prepared),
    }
}

/// How the work of a claim ended that does not stand, since the receiver of its unit is down.
fn not_finished<V: Volumes>(landscape: &Landscape<V>, claim: InClaim) -> Finished
    requires down { IsDownFor (model_meaning landscape.now.world.rules.systems) landscape.now.world claim.tid }
    ensures finished { ended_by result ≡ 0 }
    ensures stands { (held : Held) → HoldsIn landscape.now.world claim held → ⊥ }
{
    let _ = landscape.world();
    let _number = claim.number();
    Finished::Down
}

/// The work of a claim ends, with what was prepared for it.
fn finish_with<V: Volumes>(
    landscape: &mut Landscape<V>,
    claim: InClaim,
    prepared: Prepared,
) -> Result<Finished, OutOfMemory>
    requires prepared { IsPreparedFor landscape.old.world claim.tid prepared.postings }
    ensures went { Worked V.disk landscape.old landscape.new is_end (is_ok result) }
    ensures finished { IfOk result (λ given. finished_in landscape.new.world ≡ finished_in landscape.old.world + ended_by given) }
    ensures left { OnOk result (stands_in landscape.old.world claim ≡ true
        → AreOrGone landscape.old.world landscape.new.world (without_claim landscape.old.world claim.number).claims) }
    ensures stale { stands_in landscape.old.world claim ≡ false → OnOk result (landscape.new ≡ landscape.old) }
    ensures grew { (held : Held) → HoldsIn landscape.old.world claim held
        → IfOk result (FinishedSo (model_meaning landscape.old.world.rules.systems) landscape.old landscape.new claim held) }
{
    let _ = landscape.world();
    match landscape.finish(claim, prepared) {
        Ok(finished) => Ok(finished),
        Err(WorkEnd::Stale) => Ok(Finished::Down),
        Err(WorkEnd::OutOfMemory) => Err(OutOfMemory),
    }
}

/// What becomes of the documents of a unit. None where its receiver is down.
fn prepared_for<V: Volumes>(
    alloc: Global,
    landscape: &Landscape<V>,
    tid: Tid,
) -> Result<Option<Prepared>, OutOfMemory>
    ensures prepared { IfOk result (λ found. IfSome found (λ prepared. IsPreparedFor landscape.now.world tid prepared.postings)) }
    ensures down { IfOk result (λ found. IsNone found → IsDownFor (model_meaning landscape.now.world.rules.systems) landscape.now.world tid) }
{
    let Some(unit) = landscape.unit(tid) else {
        return Ok(None);
    };
    let Some(tables) = landscape.tables(unit.receiver) else {
        return Ok(None);
    };
    let postings = tables.postings(alloc, unit.receiver, unit)?;
    Ok(Some(Prepared {
        offered: true,
        postings,
    }))
}

/// How many works have ended by how one did.
pub(crate) fn ended_by(given: &Finished) -> u64
    ensures { result ≡ ended_by given.now }
{
    match given {
        Finished::Executed(_) | Finished::Failed => 1,
        Finished::Down => 0,
    }
}

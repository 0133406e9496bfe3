//! Units that were taken in are claimed and executed.

ghost use Rattle.std.specs.Prelude.{◌≡◌, IsNone, IfOk, IfSome, OnErr};
ghost use Rattle.std.specs.Result.{is_ok};
ghost use Rattle.landscape.specs.Working.{IsPreparedFor};
ghost use Rattle.document_state.specs.Meaning.{model_meaning};
ghost use Rattle.unit_works.specs.Events.{is_run};
ghost use Rattle.unit_works.specs.Finished.{finished_in};
ghost use Rattle.unit_works.specs.Worked.{HaveOnlyClaimed, NothingIn, Worked};
ghost use Rattle.unit_works.specs.Works.{ClaimExecutedAs, ExecutedAs};
ghost use Rattle.unit_works.specs.Claiming.{IsExecuted};

use crate::ending::{ended_by, finish};
use ale_base::{OutOfMemory, SystemNo};
use ale_volumes::Volumes;
use inbound_post::Prepared;
use landscape::Landscape;
use std::alloc::Global;
use unit_landscape::InClaim;

/// Claims the first unit that is offered inbound at a system, and executes it with what is prepared of its documents: `Some(1)` where it
/// was executed or failed, and `Some(0)` where the system fell as it was to append that. Where it did not fall, its log grows by exactly the
/// record of that: the unit was executed where its function is offered there, and else failed. None exactly where nothing is offered there
/// or the system is down, and then nothing has changed. After an `Err` a part of it may have happened.
pub fn execute_next<V: Volumes>(
    alloc: Global,
    landscape: &mut Landscape<V>,
    system: SystemNo,
) -> Result<Option<u64>, OutOfMemory>
    ensures { ExecutedAs V.disk landscape.old landscape.new system result }
{
    let Some(claim) = claim_to_execute(landscape, system)? else {
        return Ok(None);
    };
    let finished = finish(alloc, landscape, claim, None)?;
    Ok(Some(ended_by(&finished)))
}

/// Claims the first unit that is offered inbound at a system, to be executed by [`execute_claimed`]. None exactly where nothing is
/// offered there or the system is down. Nothing else changes; after an `Err` nothing has.
pub fn claim_to_execute<V: Volumes>(
    landscape: &mut Landscape<V>,
    system: SystemNo,
) -> Result<Option<InClaim>, OutOfMemory>
    ensures went { Worked V.disk landscape.old landscape.new is_run (is_ok result) }
    ensures finished { finished_in landscape.new.world ≡ finished_in landscape.old.world }
    ensures none { IfOk result (λ found. IsNone found → (landscape.new ≡ landscape.old) × NothingIn landscape.old.world system) }
    ensures claim { IfOk result (λ found. IfSome found
        (IsExecuted (model_meaning landscape.old.world.rules.systems) landscape.old.world landscape.new.world system)) }
    ensures only { HaveOnlyClaimed landscape.old landscape.new }
    ensures err { OnErr result (landscape.new ≡ landscape.old) }
{
    let _ = landscape.world();
    landscape.claim_in(system)
}

/// Executes the unit of a claim with what was prepared of its documents; what was not is prepared now. Nothing changes where the claim does
/// not stand. How many executions ended: none where it does not stand, or its system fell. After an `Err` a part of it may have happened.
pub fn execute_claimed<V: Volumes>(
    alloc: Global,
    landscape: &mut Landscape<V>,
    claim: InClaim,
    ready: Option<Prepared>,
) -> Result<u64, OutOfMemory>
    requires ready { IfSome ready (λ prepared. IsPreparedFor landscape.old.world claim.tid prepared.postings) }
    ensures { ClaimExecutedAs V.disk landscape.old landscape.new claim result }
{
    let _ = landscape.world();
    let finished = finish(alloc, landscape, claim, ready)?;
    Ok(ended_by(&finished))
}

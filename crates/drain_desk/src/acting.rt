//! Works are done, one at a time.

ghost use Rattle.std.specs.Prelude.{IfSome, OnOk};
ghost use Rattle.landscape.specs.Working.{IsPreparedFor};
ghost use Rattle.unit_works.specs.Claims.{NoneRuns};
ghost use Rattle.drain_desk.specs.declared.work.Task.TheVariants.{Execute, Ship};
ghost use Rattle.drain_desk.specs.Done.{HasDone};
ghost use Rattle.drain_desk.specs.ToDo.{OthersStay};
ghost use Rattle.drain_desk.specs.Work.{MayGo, tid_of};
ghost use Rattle.drain_desk.specs.steps.Acting.{ActedAs};

use crate::work::Task;
use ale_base::OutOfMemory;
use ale_volumes::Volumes;
use inbound_post::Prepared;
use landscape::Landscape;
use std::alloc::Global;
use unit_landscape::{InClaim, OutClaim};
use unit_works::{Wires, execute_claimed, ship_claimed};

/// Does a task, with what was prepared for it, where its claim stands. How many runs and executions ended.
pub(crate) fn perform<V: Volumes>(
    alloc: Global,
    landscape: &mut Landscape<V>,
    wires: &mut Wires,
    task: Task,
    prepared: Option<Prepared>,
) -> Result<u64, OutOfMemory>
    requires may { MayGo landscape.old.world task }
    requires runs { NoneRuns landscape.old.world.claims }
    requires prepared { IfSome prepared (λ its. IsPreparedFor landscape.old.world (tid_of task) its.postings) }
    ensures acted { ActedAs V.disk landscape.old landscape.new wires.old wires.new result }
    ensures done { OnOk result (HasDone V.disk landscape.old landscape.new wires.old wires.new task) }
    ensures others { OnOk result (OthersStay landscape.old.world landscape.new.world task) }
{
    match task {
        Task::Ship(claim) => ship(alloc, landscape, wires, claim, prepared),
        Task::Execute(claim) => execute(alloc, landscape, wires, claim, prepared),
    }
}

/// Ships the unit of a claim, where it stands.
fn ship<V: Volumes>(
    alloc: Global,
    landscape: &mut Landscape<V>,
    wires: &mut Wires,
    claim: OutClaim,
    prepared: Option<Prepared>,
) -> Result<u64, OutOfMemory>
    requires may { MayGo landscape.old.world (Ship claim) }
    requires prepared { IfSome prepared (λ its. IsPreparedFor landscape.old.world claim.tid its.postings) }
    ensures acted { ActedAs V.disk landscape.old landscape.new wires.old wires.new result }
    ensures done { OnOk result (HasDone V.disk landscape.old landscape.new wires.old wires.new (Ship claim)) }
    ensures others { OnOk result (OthersStay landscape.old.world landscape.new.world (Ship claim)) }
{
    match ship_claimed(alloc, landscape, wires, claim, prepared)? {
        Some(finished) => Ok(finished),
        None => Ok(0),
    }
}

/// Executes the unit of a claim, where it stands.
fn execute<V: Volumes>(
    alloc: Global,
    landscape: &mut Landscape<V>,
    wires: &mut Wires,
    claim: InClaim,
    prepared: Option<Prepared>,
) -> Result<u64, OutOfMemory>
    requires may { MayGo landscape.old.world (Execute claim) }
    requires runs { NoneRuns landscape.old.world.claims }
    requires prepared { IfSome prepared (λ its. IsPreparedFor landscape.old.world claim.tid its.postings) }
    ensures acted { ActedAs V.disk landscape.old landscape.new wires.old wires.new result }
    ensures done { OnOk result (HasDone V.disk landscape.old landscape.new wires.old wires.new (Execute claim)) }
    ensures others { OnOk result (OthersStay landscape.old.world landscape.new.world (Execute claim)) }
{
    let _ = wires;
    let _ = landscape.world();
    execute_claimed(alloc, landscape, claim, prepared)
}

//! Rounds of all systems: the first unit that is offered at each is shipped, and the first is executed.

ghost use Rattle.std.specs.Prelude.{◌≡◌, ◌≤◌, IfSome, OnOk};
ghost use Rattle.unit_works.specs.Claims.{AreOrGone};
ghost use Rattle.unit_works.specs.Drained.{FoundAs, IsIdle};
ghost use Rattle.unit_works.specs.steps.Rounds.{NothingAt, NothingTo, joined};

use crate::Wires;
use crate::executing::execute_next;
use crate::shipping::ship_next;
use ale_base::{OutOfMemory, SystemNo};
use ale_volumes::Volumes;
use landscape::Landscape;
use std::alloc::Global;

/// Ships and executes the first unit that is offered at each system. How many runs and executions ended. None exactly where nothing is
/// offered at any system, and then nothing has changed.
pub(crate) fn go_round<V: Volumes>(
    alloc: Global,
    landscape: &mut Landscape<V>,
    wires: &mut Wires,
) -> Result<Option<u64>, OutOfMemory>
    ensures found { FoundAs V.disk landscape.old wires.old landscape.new wires.new 32 (IsIdle landscape.old.world) result }
    ensures claims { OnOk result (AreOrGone landscape.old.world landscape.new.world landscape.old.world.claims) }
{
    let found = visit_all(alloc, landscape, wires)?;
    let _ = landscape.world();
    Ok(found)
}

/// Ships and executes the first unit that is offered at each system, by their numbers. None exactly where nothing is offered.
fn visit_all<V: Volumes>(
    alloc: Global,
    landscape: &mut Landscape<V>,
    wires: &mut Wires,
) -> Result<Option<u64>, OutOfMemory>
    ensures found { FoundAs V.disk landscape.old wires.old landscape.new wires.new 32 (NothingTo landscape.old.world 16) result }
    ensures claims { OnOk result (AreOrGone landscape.old.world landscape.new.world landscape.old.world.claims) }
{
    let mut found = None;
    for number in 0..SystemNo::MAX {
        let Some(system) = SystemNo::of(number + 1) else {
            // Each number from 1 to 16 is that of a system.
            unreachable!()
        };
        let here = visit(alloc, landscape, wires, system)?;
        found = joined(found, here);
    }
    Ok(found)
}

/// Ships and executes the first unit that is offered at a system. How many runs and executions ended. None exactly where nothing is
/// offered there, and then nothing has changed.
fn visit<V: Volumes>(
    alloc: Global,
    landscape: &mut Landscape<V>,
    wires: &mut Wires,
    system: SystemNo,
) -> Result<Option<u64>, OutOfMemory>
    ensures found { FoundAs V.disk landscape.old wires.old landscape.new wires.new 2 (NothingAt landscape.old.world system) result }
    ensures claims { OnOk result (AreOrGone landscape.old.world landscape.new.world landscape.old.world.claims) }
{
    let shipped = ship_next(alloc, landscape, wires, system)?;
    let executed = execute_next(alloc, landscape, system)?;
    Ok(joined(shipped, executed))
}

/// What was found here and there.
fn joined(here: Option<u64>, there: Option<u64>) -> Option<u64>
    requires here { IfSome here (λ n. n ≤ 1000) }
    requires there { IfSome there (λ n. n ≤ 1000) }
    ensures { result ≡ joined here there }
{
    match (here, there) {
        (None, there) => there,
        (Some(n), None) => Some(n),
        (Some(n), Some(m)) => Some(n + m),
    }
}

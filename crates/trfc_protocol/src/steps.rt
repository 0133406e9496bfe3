//! One step of a world, and a run of many.

ghost use Rattle.std.specs.Prelude.{◌≡◌, IfOk};
ghost use Rattle.trfc_protocol.specs.Happens.{happens, run};
ghost use Rattle.trfc_protocol.specs.Safe.{IsSafe};

use crate::{Event, Rules, World};
use ale_base::OutOfMemory;
use std::alloc::Global;

/// The world after an event. An event that is not possible leaves it as it is. Where no number is left for a claim, an
/// event that would make one answers want of memory. After `OutOfMemory` the world is given up.
pub fn step<R: Rules>(
    alloc: Global,
    world: World<R>,
    event: &Event,
) -> Result<World<R>, OutOfMemory>
    requires { IsSafe R.meaning world }
    ensures happens { IfOk result (λ after. after ≡ happens (R.meaning world.rules) world event.now) }
    ensures rules { IfOk result (λ after. after.rules ≡ world.rules) }
    ensures safe { IfOk result (IsSafe R.meaning) }
{
    let mut world = world;
    world.happen(alloc, event)?;
    Ok(world)
}

/// The world after these events, one after the other. After `OutOfMemory` the world is given up.
pub fn run_events<R: Rules>(
    alloc: Global,
    world: World<R>,
    events: &[Event],
) -> Result<World<R>, OutOfMemory>
    requires { IsSafe R.meaning world }
    ensures happens { IfOk result (λ after. after ≡ run R.meaning world events.now) }
    ensures rules { IfOk result (λ after. after.rules ≡ world.rules) }
    ensures safe { IfOk result (IsSafe R.meaning) }
{
    let mut world = world;
    for event in events {
        world = step(alloc, world, event)?;
    }
    Ok(world)
}

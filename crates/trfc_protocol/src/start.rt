//! A world that begins with given logs.

ghost use Rattle.std.specs.Prelude.{◌≡◌, map, IfOk};
ghost use Rattle.trfc_protocol.specs.Start.{first_state, genesis_log};

use crate::{Rules, SystemState, World};
use ale_base::{Items, OutOfMemory};
use std::alloc::Global;
use unit_core::Record;

impl<R: Rules> World<R> {
    ghost use Rattle.std.specs.Prelude.{◌≡◌, [], length, IfOk};
    ghost use Rattle.trfc_protocol.specs.Start.{first_world, genesis_logs};
    ghost use Rattle.unit_core.specs.Systems.{of_system};
    ghost use Rattle.trfc_protocol.specs.Safe.{Sound, IsSafe};

    /// The world that begins with these logs, that of system 1 first: all systems are up, and there is no claim. Claims are
    /// numbered from 1. That a log is legal is decided by `is_legal`; that logs together keep the law is to be known from where
    /// they come, as from the journals of an earlier run.
    pub fn of_logs(
        alloc: Global,
        rules: R,
        logs: Items<Items<Record>>,
    ) -> Result<World<R>, OutOfMemory>
        requires all { length logs ≡ (R.meaning rules).systems }
        requires sound { Sound (R.meaning rules) (of_system logs) }
        ensures world { IfOk result (λ world. world ≡ first_world rules logs) }
        ensures safe { IfOk result (IsSafe R.meaning) }
    {
        Ok(World {
            rules,
            systems: first_states(alloc, logs)?,
            claims: Items::new(alloc),
            falls: 0,
            next_number: 1,
        })
    }

    /// The world in which the log of each system is its Genesis, with this text.
    pub fn begin(alloc: Global, rules: R, text: &[u8]) -> Result<World<R>, OutOfMemory>
        ensures world { IfOk result (λ world. world ≡ first_world rules (genesis_logs text.now (R.meaning rules).systems)) }
        ensures safe { IfOk result (IsSafe R.meaning) }
    {
        let mut logs = Items::new(alloc);
        for number in 0..rules.systems() {
            logs.push(genesis_log(alloc, number + 1, text)?)?;
        }
        World::of_logs(alloc, rules, logs)
    }

    /// The world in which the log of each system is its Genesis, with an empty text.
    pub fn start(alloc: Global, rules: R) -> Result<World<R>, OutOfMemory>
        ensures world { IfOk result (λ world. world ≡ first_world rules (genesis_logs [] (R.meaning rules).systems)) }
        ensures safe { IfOk result (IsSafe R.meaning) }
    {
        World::begin(alloc, rules, &[])
    }
}

/// Systems that begin with these logs.
fn first_states(
    alloc: Global,
    logs: Items<Items<Record>>,
) -> Result<Items<SystemState>, OutOfMemory>
    ensures { IfOk result (λ systems. systems ≡ map first_state logs) }
{
    let mut systems = Items::new(alloc);
    for log in logs.into_vec() {
        systems.push(first_state(log))?;
    }
    Ok(systems)
}

/// A system that begins with a log.
fn first_state(log: Items<Record>) -> SystemState
    ensures { result ≡ first_state log }
{
    SystemState {
        log,
        up: true,
        rest: None,
    }
}

/// A log that is a Genesis alone.
fn genesis_log(alloc: Global, system: u8, text: &[u8]) -> Result<Items<Record>, OutOfMemory>
    ensures { IfOk result (λ log. log ≡ genesis_log text.now system) }
{
    let text = Items::from_slice(alloc, text)?;
    let mut log = Items::new(alloc);
    log.push(Record::Genesis { system, text })?;
    Ok(log)
}

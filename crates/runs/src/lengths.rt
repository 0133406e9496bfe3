//! What is read of the systems behind each command: how long their logs are, and which of them are down.

ghost use Rattle.std.specs.Prelude.{◌≡◌, ◌≤◌, ◌<◌, suc, map, length, IfOk};
ghost use Rattle.runs.specs.Turns.{down_by_from, down_from, is_by, size_of};
ghost use Rattle.unit_landscape.specs.KeptWorlds.{cause_at};
ghost use Rattle.trfc_protocol.specs.declared.world.SystemState.{SystemState as StateOf};

use ale_base::{OutOfMemory, SystemNo};
use ale_volumes::Volumes;
use landscape::Landscape;
use std::alloc::Global;
use trfc_protocol::SystemState;
use unit_landscape::Cause;

/// How many records the log of each system has, in order of systems.
pub(crate) fn log_lengths(alloc: Global, systems: &[SystemState]) -> Result<Vec<u64>, OutOfMemory>
    ensures { IfOk result (λ lengths. lengths.items ≡ map (λ (state : StateOf). length state.log) systems.now) }
{
    let mut lengths = Vec::new(alloc);
    for state in systems {
        lengths.push(state.log.len() as u64)?;
    }
    Ok(lengths)
}

/// The number of the first of these systems that is down. None exactly where all are up.
pub(crate) fn first_down(systems: &[SystemState]) -> Option<SystemNo>
    requires { length systems.now ≤ 16 }
    ensures { result ≡ down_from 1 systems.now }
{
    for (place, state) in systems.iter().enumerate() {
        if !state.up {
            return Some(numbered(place));
        }
    }
    None
}

/// What a system may be down by that is told at the end of a run.
#[derive(Clone, Copy)]
pub(crate) enum DownBy {
    /// Its volume failed.
    Fault,
    /// A record did not fit on its volume.
    Overrun,
}

impl DownBy {
    /// Whether a system of this cause is down by this.
    fn is_cause(self, cause: Cause) -> bool
        ensures { result ≡ is_by self cause }
    {
        match (self, cause) {
            (DownBy::Fault, Cause::Faulted) | (DownBy::Overrun, Cause::Overran(_)) => true,
            _ => false,
        }
    }
}

/// The number of the first of these systems of a landscape that is down by this. None exactly where there is none.
pub(crate) fn first_down_by<V: Volumes>(
    by: DownBy,
    landscape: &Landscape<V>,
    systems: &[SystemState],
) -> Option<SystemNo>
    requires { length systems.now ≤ 16 }
    ensures { result ≡ down_by_from by (cause_at landscape.now) 1 systems.now }
{
    for (place, state) in systems.iter().enumerate() {
        let system = numbered(place);
        if !state.up && by.is_cause(landscape.cause(system)) {
            return Some(system);
        }
    }
    None
}

/// How long a volume would have been with a record that did not fit; 0 for each other cause.
pub(crate) fn size_of(cause: Cause) -> u64
    ensures { result ≡ size_of cause }
{
    match cause {
        Cause::Overran(size) => size,
        _ => 0,
    }
}

/// The system at a place.
fn numbered(place: usize) -> SystemNo
    requires { place < 16 }
    ensures { result ≡ suc place }
{
    match SystemNo::of(place as u8 + 1) {
        Some(system) => system,
        // There are 16 systems at most.
        None => unreachable!(),
    }
}

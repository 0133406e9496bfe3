//! A drain by workers.

ghost use Rattle.std.specs.Prelude.{◌≡◌, ◌≤◌, []};
ghost use Rattle.unit_works.specs.Drained.{DrainedAs};
ghost use Rattle.unit_works.specs.Rounds.{RoundsAs};
ghost use Rattle.drain_desk.specs.steps.Closing.{ClosedAs, IsAdded};

use crate::desk::Parts;
use crate::{Began, DrainDesk};
use ale_base::OutOfMemory;
use ale_io::Gate;
use ale_volumes::Volumes;
use dialog_pool::{PoolEnd, PoolShort, run_pool};
use landscape::Landscape;
use std::alloc::Global;
use std::sync::Wait;
use std::thread::Threads;
use unit_works::{Wires, confirm_all, go_rounds};

/// A landscape that was drained, the letters that are left, and how many runs and executions ended.
#[derive(Drop)]
pub struct Drained<V: Volumes> {
    /// The landscape.
    pub landscape: Landscape<V>,
    /// The letters that are left of each unit.
    pub wires: Wires,
    /// How many runs and executions ended, or that memory was wanting.
    pub end: Result<u64, OutOfMemory>,
}

/// Works until nothing is left to do, by so many workers, from 1 to 16. So it goes on, by design and by no clause: at first all claims are
/// given up, and each unit that is done and not ended, with both its systems up, takes a letter, and is confirmed unless its confirmation
/// is lost. Then workers claim the units that are offered, pass the gate and prepare each without the lock, and ship or execute up to 16
/// of them, one after the other, in one more hold of it. Once they have ended the caller gives up the claims that are left and goes round
/// all systems until nothing is offered.
///
/// So a drain is a list of acts, one after the other, and nothing else but that claims are made and given up between them: the logs grow in
/// each by exactly its records, or by those before the one at which a system fell. At the end no claim is left, and no confirmation is due but
/// those that a letter lost in it. Each unit takes one letter at most, and one more only where a system fell in its act before. Where no queue
/// was stopped, no unit marked and no letter left before, and all systems are up at the end and offer the functions of the units, each unit that
/// was committed went its whole way: it is received, executed, done, forgotten and ended. In which order the acts come is for the workers to find.
///
/// `OutOfMemory` comes where a request for memory was refused. The works before it were done.
pub fn drain<R: Threads + Wait + Sync, V: Volumes + Send, G: Gate + Sync>(
    rt: &R,
    alloc: Global,
    landscape: Landscape<V>,
    wires: Wires,
    workers: u8,
    gate: &G,
) -> Drained<V>
    requires workers { (1 ≤ workers) × (workers ≤ 16) }
    ensures { DrainedAs V.disk landscape wires result.landscape result.wires result.end }
{
    let mut landscape = landscape;
    let mut wires = wires;
    let _ = landscape.world();
    landscape.revoke();
    match confirm_all(&mut landscape, &mut wires) {
        Ok(()) => {
            let drained = work(rt, alloc, landscape, wires, workers, gate);
            let _ = drained.landscape.world();
            drained
        }
        Err(OutOfMemory) => Drained {
            landscape,
            wires,
            end: Err(OutOfMemory),
        },
    }
}

/// Ships and executes what is offered, by workers, until nothing is.
fn work<R: Threads + Wait + Sync, V: Volumes + Send, G: Gate + Sync>(
    rt: &R,
    alloc: Global,
    landscape: Landscape<V>,
    wires: Wires,
    workers: u8,
    gate: &G,
) -> Drained<V>
    requires workers { (1 ≤ workers) × (workers ≤ 16) }
    requires bare { landscape.world.claims ≡ [] }
    ensures { RoundsAs V.disk landscape wires result.landscape result.wires result.end }
{
    let origin = Began::of(&landscape, &wires);
    let desk = DrainDesk::of(alloc, origin, landscape, wires);
    match run_pool(rt, alloc, desk, workers, gate) {
        Ok(PoolEnd { desk, .. }) => close(alloc, desk),
        Err(PoolShort { desk }) => give_up(desk),
    }
}

/// Workers have ended: the claims that are left are given up, and what is still offered is shipped and executed.
fn close<V: Volumes>(alloc: Global, desk: DrainDesk<V>) -> Drained<V>
    ensures { RoundsAs V.disk desk.origin.landscape.value desk.origin.wires.value result.landscape result.wires result.end }
{
    let Parts {
        landscape,
        wires,
        finished,
        is_short,
    } = desk.end();
    if is_short {
        return Drained {
            landscape,
            wires,
            end: Err(OutOfMemory),
        };
    }
    close_going(alloc, landscape, wires, finished)
}

/// How a drain ends for which no memory was wanting.
fn close_going<V: Volumes>(
    alloc: Global,
    landscape: Landscape<V>,
    wires: Wires,
    finished: u64,
) -> Drained<V>
    ensures { ClosedAs V.disk landscape wires finished result.landscape result.wires result.end }
{
    let mut left = landscape;
    let mut wires = wires;
    let _ = left.world();
    left.revoke();
    let end = added(finished, go_rounds(alloc, &mut left, &mut wires));
    Drained {
        landscape: left,
        wires,
        end,
    }
}

/// So many, and more of them; more than there are numbers count as want of memory.
fn added(finished: u64, more: Result<u64, OutOfMemory>) -> Result<u64, OutOfMemory>
    ensures { IsAdded finished more result }
{
    let more = more?;
    if more > u64::MAX - finished {
        return Err(OutOfMemory);
    }
    Ok(finished + more)
}

/// Memory was wanting.
fn give_up<V: Volumes>(desk: DrainDesk<V>) -> Drained<V>
    ensures { RoundsAs V.disk desk.origin.landscape.value desk.origin.wires.value result.landscape result.wires result.end }
{
    let Parts {
        landscape,
        wires,
        ..
    } = desk.end();
    Drained {
        landscape,
        wires,
        end: Err(OutOfMemory),
    }
}

//! The two parts of a drain: confirmations that are due are sent, and units are shipped and executed until none is left.

ghost use Rattle.std.specs.Prelude.{◌≡◌, OnOk};
ghost use Rattle.ale_base.specs.Tid.{TidOf};
ghost use Rattle.unit_works.specs.Claims.{AreOrGone};
ghost use Rattle.unit_works.specs.Rounds.{IsTo, RoundsAs, VisitedSo};

use crate::Wires;
use crate::confirming::confirm_each;
use crate::rounds::go_round;
use ale_base::{OutOfMemory, SystemNo};
use ale_volumes::Volumes;
use landscape::Landscape;
use std::alloc::Global;

/// More rounds than any drain goes: each but the last does a work at least, and each of at most 16 times 65,536 units is claimed twice,
/// to be shipped and to be executed, unless a system falls.
const MOST_ROUNDS: u32 = 4_000_000;

/// Confirms each unit that is done and not ended, with both its systems up, under its next letter: nothing is sent where its confirmation is
/// lost. No other unit takes a letter, and no claim goes unless a system falls. After an `Err` the acts before it were done.
pub fn confirm_all<V: Volumes>(
    landscape: &mut Landscape<V>,
    wires: &mut Wires,
) -> Result<(), OutOfMemory>
    ensures visited { VisitedSo V.disk landscape.old wires.old landscape.new wires.new (IsTo 16) result }
    ensures claims { OnOk result (AreOrGone landscape.old.world landscape.new.world landscape.old.world.claims) }
{
    for number in 0..SystemNo::MAX {
        let Some(system) = SystemNo::of(number + 1) else {
            // Each number from 1 to 16 is that of a system.
            unreachable!()
        };
        confirm_at(landscape, wires, system)?;
    }
    Ok(())
}

/// Confirms the units of a system that are done and not ended, each under its next letter.
fn confirm_at<V: Volumes>(
    landscape: &mut Landscape<V>,
    wires: &mut Wires,
    system: SystemNo,
) -> Result<(), OutOfMemory>
    ensures visited { VisitedSo V.disk landscape.old wires.old landscape.new wires.new (λ (other : TidOf). other.system ≡ system) result }
    ensures claims { OnOk result (AreOrGone landscape.old.world landscape.new.world landscape.old.world.claims) }
{
    let _ = landscape.world();
    let tids = landscape.unconfirmed(system)?;
    confirm_each(landscape, wires, tids.as_slice())
}

/// Goes round all systems until a whole round finds nothing. How many runs and executions ended. No claim that stood before goes unless a
/// system falls.
pub fn go_rounds<V: Volumes>(
    alloc: Global,
    landscape: &mut Landscape<V>,
    wires: &mut Wires,
) -> Result<u64, OutOfMemory>
    ensures gone { RoundsAs V.disk landscape.old wires.old landscape.new wires.new result }
    ensures claims { OnOk result (AreOrGone landscape.old.world landscape.new.world landscape.old.world.claims) }
{
    let mut finished = 0;
    for _round in 0..MOST_ROUNDS {
        match go_round(alloc, landscape, wires)? {
            None => return Ok(finished),
            Some(more) => finished += more,
        }
    }
    Err(OutOfMemory)
}

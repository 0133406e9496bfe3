//! The record of an event is appended, or its system falls in the event's place.

ghost use Rattle.std.specs.Prelude.{[]};
ghost use Rattle.unit_landscape.specs.Kept.{IsLandscape};
ghost use Rattle.unit_landscape.specs.Writes.{WritesOnly};
ghost use Rattle.unit_landscape.specs.Appending.{IsDue, EndsAs, EndsSo, at};
ghost use Rattle.unit_landscape.specs.Crashes.{LeavesSound};

use crate::{AppendEnd, Cause, KeptWorld};
use ale_base::{OutOfMemory, SystemNo};
use ale_volumes::Volumes;
use system_tables::Application;
use trfc_protocol::Rules;
use unit_core::{AleUnit, Record};

/// How a record of the protocol was appended.
#[derive(Clone, Copy)]
pub(crate) enum Appended {
    /// It stands in its log.
    Written,
    /// Its system fell: its volume failed, or the record did not fit.
    Fallen,
}

/// Appends the record of an event, with the units that it commits. After `Full` nothing has changed.
pub(crate) fn record<R: Rules, A: Application, V: Volumes>(
    kept: &mut KeptWorld<R, A, V>,
    system: SystemNo,
    next: Record,
    more: &[AleUnit],
    claim: Option<u64>,
    extra: A::Extra,
) -> Result<(), AppendEnd>
    requires landscape { IsLandscape R.meaning kept.old.world }
    requires due { IsDue R.meaning A.goes_with kept.old system next more.now claim extra }
    ensures landscape { IsLandscape R.meaning kept.new.world }
    ensures ends { EndsAs (R.meaning kept.old.world.rules) V.disk kept.old kept.new system next claim result }
    ensures disk { WritesOnly V.disk kept.old kept.new (at system next) }
    ensures sound { V.disk.told → LeavesSound R.meaning V.disk kept.old kept.new }
{
    let _ = kept.world();
    kept.append(system, next, more, claim, extra)
}

/// Appends the record of an event that commits no units. Where it does not fit its system falls, with how long its volume would be.
pub(crate) fn append<R: Rules, A: Application, V: Volumes>(
    kept: &mut KeptWorld<R, A, V>,
    system: SystemNo,
    next: Record,
    claim: Option<u64>,
    extra: A::Extra,
) -> Result<Appended, OutOfMemory>
    requires landscape { IsLandscape R.meaning kept.old.world }
    requires due { IsDue R.meaning A.goes_with kept.old system next [] claim extra }
    ensures landscape { IsLandscape R.meaning kept.new.world }
    ensures ends { EndsSo (R.meaning kept.old.world.rules) V.disk kept.old kept.new system next claim result }
    ensures disk { WritesOnly V.disk kept.old kept.new (at system next) }
{
    match record(kept, system, next, &[], claim, extra) {
        Ok(()) => Ok(Appended::Written),
        Err(AppendEnd::Volume) => Ok(Appended::Fallen),
        Err(AppendEnd::Full(size)) => {
            let _ = kept.world();
            kept.fall(system, Cause::Overran(size));
            Ok(Appended::Fallen)
        }
        Err(AppendEnd::Before | AppendEnd::After) => Err(OutOfMemory),
    }
}

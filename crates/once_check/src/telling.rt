//! Records that tell of the unit of an id.

ghost use Rattle.std.specs.Prelude.{◌≡◌, ◌≤◌, ◌-◌, slice_get};
ghost use Rattle.std.specs.Option.{option_copied};
ghost use Rattle.unit_core.specs.Systems.{lent, of_system};
ghost use Rattle.once_check.specs.steps.ToldIds.{receiver_of, told_breach};

use crate::breach::Clause;
use crate::lists::list_of;
use crate::told::{Told, is_done, is_forgotten, is_received};
use ale_base::{SystemNo, Tid};
use unit_core::{AleUnit, Record};

/// The unit of a number that a system committed.
pub(crate) fn committed_unit<'a>(
    committed: &[&'a [AleUnit]],
    system: SystemNo,
    number: u32,
) -> Option<&'a AleUnit>
    requires { 1 ≤ number }
    ensures { option_copied result ≡ slice_get (of_system (lent committed.now) system) (number - 1) }
{
    list_of(committed, system).get(number as usize - 1)
}

/// The receiver of the unit of this id that a system committed.
fn receiver_of(committed: &[&[AleUnit]], system: SystemNo, tid: Tid) -> Option<SystemNo>
    ensures { result ≡ receiver_of (of_system (lent committed.now)) system tid }
{
    match committed_unit(committed, system, tid.unit()) {
        Some(unit) if unit.tid == tid => Some(unit.receiver),
        _ => None,
    }
}

/// The clause that a record breaks which takes in no unit.
pub(crate) fn told_breach(
    committed: &[&[AleUnit]],
    all: &[Told],
    system: SystemNo,
    next: &Record,
) -> Option<Clause>
    ensures { result ≡ told_breach (of_system (lent committed.now)) all.now system next.now }
{
    match next {
        Record::Done { tid } => match receiver_of(committed, system, *tid) {
            Some(receiver) if is_received(all, receiver, *tid) => None,
            _ => Some(Clause::WasTaken),
        },
        Record::Forget { tid } => {
            if is_done(all, tid.system(), *tid) {
                None
            } else {
                Some(Clause::WasDone)
            }
        }
        Record::Ended { tid } => match receiver_of(committed, system, *tid) {
            Some(receiver) if is_forgotten(all, receiver, *tid) => None,
            _ => Some(Clause::WasForgotten),
        },
        _ => None,
    }
}

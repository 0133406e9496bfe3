//! The id of a system's next unit.

ghost use Rattle.std.specs.Prelude.{◌≡◌, ◌≤◌, ◌+◌, ◌↔◌, IsNone, IfSome};
ghost use Rattle.ale_base.specs.declared.tid.TheConstants.Tid.{MAX_UNIT};

use ale_base::{SystemNo, Tid};

/// The id of a system's next unit, behind as many units as it has. None exactly where it has 65,536, the most.
pub fn next_tid(system: SystemNo, units: u32) -> Option<Tid>
    ensures next { IfSome result (λ tid. tid ≡ record { system = system; unit = units + 1 }) }
    ensures none { IsNone result ↔ (MAX_UNIT ≤ units) }
{
    if units >= Tid::MAX_UNIT {
        return None;
    }
    Some(Tid::of(system, units + 1))
}

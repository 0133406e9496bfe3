//! Claims that are given up, in the tables of their systems.

ghost use Rattle.std.specs.Prelude.{◌≡◌, ◌≤◌, ◌-◌, true, Some, List, [], length, slice_get, is_some};
ghost use Rattle.trfc_protocol.specs.declared.held.Held.{Held};
ghost use Rattle.trfc_protocol.specs.declared.world.World.{World};
ghost use Rattle.trfc_protocol.specs.Safe.{AreApart};
ghost use Rattle.plain_queues.specs.Queues.{unit_of, claim_of};
ghost use Rattle.system_tables.specs.Tables.{TablesOf, queues_of, with_queues};
ghost use Rattle.plain_queues.specs.Changes.{released};
ghost use Rattle.unit_landscape.specs.Changed.{ChangedAt};
ghost use Rattle.unit_landscape.specs.Claims.{IsClaimed};
ghost use Rattle.unit_landscape.specs.InStep.{AreInStep, IsHeldIn};

use ale_base::{Items, SystemNo, Tid, Way};
use system_tables::{Application, SystemTables};
use trfc_protocol::{Held, HeldKind, Rules, World};

/// All of these claims are given up in the tables of their systems.
pub(crate) fn let_all_go<R: Rules, A: Application>(
    world: &World<R>,
    tables: &mut Items<SystemTables<A>>,
    claims: &[Held],
)
    requires apart { AreApart claims.now }
    requires in_step { AreInStep A.stands (R.meaning world.now.rules) world.now.systems claims.now tables.old }
    ensures { AreInStep A.stands (R.meaning world.now.rules) world.now.systems [] tables.new }
{
    for held in claims {
        let_go(world, tables, *held);
    }
}

/// A claim is given up in the tables of its system, where that is up. The tables of one that is down know of no claims.
pub(crate) fn let_go<R: Rules, A: Application>(
    world: &World<R>,
    tables: &mut Items<SystemTables<A>>,
    held: Held,
)
    requires { IsHeldIn A.stands (R.meaning world.now.rules) world.now.systems tables.old held }
    ensures { (claims after : List Held) → AreInStep A.stands (R.meaning world.now.rules) world.now.systems claims tables.old
        → IsClaimed held None claims after → AreInStep A.stands (R.meaning world.now.rules) world.now.systems after tables.new }
{
    if !world.is_up(held.system) {
        return;
    }
    match held.kind {
        HeldKind::Out => release(tables, held.system, Way::Outgoing, held.tid, held.number),
        HeldKind::In => release(tables, held.system, Way::Incoming, held.tid, held.number),
        HeldKind::Direct => {}
    }
}

/// The claim of this number on a unit is given up in the queues of a system, where the unit is in them.
fn release<A: Application>(
    tables: &mut Items<SystemTables<A>>,
    system: SystemNo,
    way: Way,
    tid: Tid,
    number: u64,
)
    requires within { system ≤ length tables.old }
    requires held { (its : TablesOf A) → slice_get tables.old (system - 1) ≡ Some its → is_some (unit_of tid (queues_of way its)) ≡ true
        → claim_of tid (queues_of way its) ≡ Some number }
    ensures { ChangedAt (λ old now. now ≡ with_queues way (released tid (queues_of way old)) old) (system - 1) tables.old tables.new }
{
    let at = system.get() as usize - 1;
    let its = tables.at_mut(at);
    if its.is_outstanding(way, tid) {
        its.release(way, tid, number);
    }
}

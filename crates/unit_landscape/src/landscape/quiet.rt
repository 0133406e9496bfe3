//! Whether anything is left to do.

ghost use Rattle.std.specs.Prelude.{◌≡◌};
ghost use Rattle.system_tables.specs.Tables.{unit_numbered};
ghost use Rattle.unit_landscape.specs.Quiet.{receiver_up, none_up};

use super::UnitLandscape;
use ale_base::SystemNo;
use ale_volumes::Volumes;
use std::collections::BTreeSet;
use system_tables::{Application, SystemTables};
use trfc_protocol::{Rules, World};

impl<R: Rules, A: Application, V: Volumes> UnitLandscape<R, A, V> {
    ghost use Rattle.std.specs.Prelude.{◌≡◌, ◌↔◌, true};
    ghost use Rattle.unit_landscape.specs.Quiet.{IsQuiet, IsQuietAt, AreConfirmed};

    /// Whether nothing is left to do: no unit is offered at any system in either direction, and no unit that is done and not ended has
    /// both its systems up. It takes no memory.
    pub fn quiet(&self) -> bool
        ensures { (result ≡ true) ↔ IsQuiet (R.meaning self.now.world.rules) self.now.world }
    {
        let systems = self.kept.world().rules.systems();
        for number in 0..systems {
            let Some(system) = SystemNo::of(number + 1) else {
                // There are 16 systems at most.
                unreachable!()
            };
            if !self.is_quiet_at(system) {
                return false;
            }
        }
        true
    }

    /// Whether nothing is left to do at a system.
    fn is_quiet_at(&self, system: SystemNo) -> bool
        ensures { (result ≡ true) ↔ IsQuietAt (R.meaning self.now.world.rules) self.now.world system }
    {
        let None = self.next_out(system) else {
            return false;
        };
        let None = self.next_in(system) else {
            return false;
        };
        self.are_confirmed(system)
    }

    /// Whether no unit of a system that is done and not ended has both its systems up.
    fn are_confirmed(&self, system: SystemNo) -> bool
        ensures { (result ≡ true) ↔ AreConfirmed (R.meaning self.now.world.rules) self.now.world system }
    {
        let world = self.kept.world();
        if !world.is_up(system) {
            return true;
        }
        let tables = self.kept.tables(system);
        none_up(world, tables, tables.unconfirmed().numbers())
    }
}

/// Whether none of the units of these numbers, which a system committed, has a receiver that is up.
fn none_up<R, A: Application>(
    world: &World<R>,
    tables: &SystemTables<A>,
    numbers: &BTreeSet<(u8, u32)>,
) -> bool
    ensures { result ≡ none_up world.now tables.now.units numbers.now.keys }
{
    for of_one in numbers {
        if receiver_up(world, tables, of_one.1) {
            return false;
        }
    }
    true
}

/// Whether a system committed a unit of this number, and its receiver is up.
fn receiver_up<R, A: Application>(world: &World<R>, tables: &SystemTables<A>, number: u32) -> bool
    ensures { result ≡ receiver_up world.now (unit_numbered number tables.now.units) }
{
    match tables.unit(number) {
        Some(unit) => world.is_up(unit.receiver),
        None => false,
    }
}

//! The landscape: what is kept, and the record of an event.

ghost use Rattle.std.specs.Prelude.{◌≡◌};

mod arriving;
mod claiming;
mod confirming;
mod finishing;
mod late;
mod operating;
mod quiet;
mod reopening;
mod replying;

use crate::{Cause, KeptWorld};
use ale_base::{OutOfMemory, SystemNo, Tid};
use ale_volumes::Volumes;
use std::alloc::Global;
use std::marker::Model;
use system_tables::{Application, SystemTables};
use trfc_protocol::{Rules, World};
use unit_core::{AleUnit, Record};

/// The systems of a landscape: their logs, which of them are up, and the claims on their units, with the tables that follow the logs
/// and the volumes that hold them.
#[derive(Drop)]
pub struct UnitLandscape<R: Rules, A: Application, V: Volumes> {
    alloc: Global,
    kept: KeptWorld<R, A, V>,
}

impl<R: Rules, A: Application, V: Volumes> Model for UnitLandscape<R, A, V> {
    ghost use Rattle.unit_landscape.specs.KeptWorlds.{KeptOf};
    ghost use Rattle.unit_landscape.specs.Kept.{IsLandscape};

    ghost Value = { KeptOf R A V };

    ghost view = { λ landscape. landscape.kept };

    ghost invariant = { λ landscape. IsLandscape R.meaning landscape.kept.world };
}

impl<R: Rules, A: Application, V: Volumes> UnitLandscape<R, A, V> {
    ghost use Rattle.std.specs.Prelude.{◌≡◌, ◌-◌, true, slice_get, IfOk};
    ghost use Rattle.std.specs.Option.{option_copied, option_map};
    ghost use Rattle.trfc_protocol.specs.Worlds.{log_of, is_up, committed_unit};
    ghost use Rattle.system_tables.specs.Tables.{TablesOf};
    ghost use Rattle.unit_journal.specs.OnDisk.{moments_at};
    ghost use Rattle.unit_journal.specs.Changes.{with_moment};
    ghost use Rattle.unit_landscape.specs.KeptWorlds.{IsKept, cause_at};
    ghost use Rattle.unit_landscape.specs.Counted.{committed_total, received_total, executed_total, AreInOrder};
    ghost use Rattle.unit_landscape.specs.Kept.{IsLandscape};
    ghost use Rattle.unit_landscape.specs.Writes.{size_with};
    ghost use Rattle.unit_codec.specs.Condition.{IsWritable};
    ghost use Rattle.unit_landscape.specs.Tables.{AreTablesUp};

    /// A landscape of a world that is kept, is safe, and commits what can be written.
    pub(crate) fn new(alloc: Global, kept: KeptWorld<R, A, V>) -> UnitLandscape<R, A, V>
        requires { IsLandscape R.meaning kept.world }
        ensures { result ≡ kept }
    {
        UnitLandscape { alloc, kept }
    }

    /// The world. It is safe; the tables are in step with it, and the volumes hold its logs.
    pub fn world(&self) -> &World<R>
        ensures world { result.now ≡ self.now.world }
        ensures safe { IsLandscape R.meaning self.now.world }
        ensures kept { IsKept R.meaning A.stands V.disk self.now }
    {
        self.kept.world()
    }

    /// The log of a system. It is empty where the landscape has no system of this number.
    pub fn log(&self, system: SystemNo) -> &[Record]
        ensures { result.now ≡ log_of self.now.world system }
    {
        self.kept.world().log(system)
    }

    /// Whether a system is up.
    pub fn is_up(&self, system: SystemNo) -> bool
        ensures { result ≡ is_up self.now.world system }
    {
        self.kept.world().is_up(system)
    }

    /// Why a system is down, if it is.
    pub fn cause(&self, system: SystemNo) -> Cause
        ensures { result ≡ cause_at self.now system }
    {
        self.kept.cause(system)
    }

    /// How many units the systems committed, received and executed: each together, those that are down too. It takes no memory, and a time
    /// by the number of the systems alone.
    pub fn counts(&self) -> (u64, u64, u64)
        ensures committed { result.0 ≡ committed_total (R.meaning self.now.world.rules) self.now.world }
        ensures received { result.1 ≡ received_total (R.meaning self.now.world.rules) self.now.world }
        ensures executed { result.2 ≡ executed_total (R.meaning self.now.world.rules) self.now.world }
        ensures order { AreInOrder (R.meaning self.now.world.rules) self.now.world }
    {
        let _ = self.kept.world();
        (
            self.kept.committed(),
            self.kept.received(),
            self.kept.executed(),
        )
    }

    /// The unit of this id, as its sender committed it, in constant time. None exactly where it committed none.
    pub fn unit(&self, tid: Tid) -> Option<&AleUnit>
        ensures { option_copied result ≡ committed_unit (R.meaning self.now.world.rules) self.now.world tid }
    {
        self.kept.unit(tid)
    }

    /// The moments of the entries of a system's log, oldest first: none of them where there is no such system.
    pub fn moments(&self, system: SystemNo) -> &[Option<u64>]
        ensures { result.now ≡ moments_at self.now.journals (system - 1) }
    {
        self.kept.moments(system)
    }

    /// How long the volume of a system that is up would be with a record behind its log, in bytes: an append of the record answers `Full` with
    /// this length where it is over 67,108,864. It writes nothing.
    pub fn size_with(&self, system: SystemNo, next: &Record) -> Result<u64, OutOfMemory>
        requires up { is_up self.now.world system ≡ true }
        requires writable { IsWritable next.now }
        ensures { IfOk result (λ size. size ≡ size_with self.now system next.now) }
    {
        self.kept.size_with(system, next)
    }

    /// Sets the moment with which records are written from now on; `None` where none is known.
    pub fn set_moment(&mut self, moment: Option<u64>)
        ensures { self.new ≡ record self.old { journals = with_moment moment self.old.journals } }
    {
        self.kept.set_moment(moment);
    }

    /// The tables of a system that is up, which are those of its log and of the claims at it. None exactly where it is down.
    pub fn tables(&self, system: SystemNo) -> Option<&SystemTables<A>>
        ensures { AreTablesUp A.stands (R.meaning self.now.world.rules) self.now system (option_copied result) }
    {
        if self.kept.world().is_up(system) {
            Some(self.kept.tables(system))
        } else {
            None
        }
    }

    /// The application's tables of a system. None exactly where the landscape has no such system.
    pub fn application(&self, system: SystemNo) -> Option<&A>
        ensures { option_copied result ≡ option_map (λ (its : TablesOf A). its.application) (slice_get self.now.tables (system - 1)) }
    {
        self.kept.application(system)
    }

    /// The volumes.
    pub fn into_volumes(self) -> V
        ensures { result ≡ self.vols }
    {
        let UnitLandscape { kept, .. } = self;
        kept.into_volumes()
    }
}

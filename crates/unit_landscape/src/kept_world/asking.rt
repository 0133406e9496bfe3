//! Questions to the tables of a system that is up, which answer by its log and the claims.

use super::KeptWorld;
use ale_base::{SystemNo, Tid, Way};
use ale_volumes::Volumes;
use system_tables::{Application, SystemTables};
use trfc_protocol::Rules;
use unit_core::AleUnit;

impl<R: Rules, A: Application, V: Volumes> KeptWorld<R, A, V> {
    ghost use Rattle.std.specs.Prelude.{◌≡◌, ◌-◌, ◌<◌, ◌^◌, true, false, length, slice_get, Some};
    ghost use Rattle.std.specs.Option.{option_copied, option_map_or};
    ghost use Rattle.unit_core.specs.Queues.{unit_named, is_outstanding};
    ghost use Rattle.tid_table.specs.LogTids.{is_known};
    ghost use Rattle.plain_queues.specs.LogQueues.{HaveOneSender, units_of, through};
    ghost use Rattle.trfc_protocol.specs.Legal.{IsLegal};
    ghost use Rattle.trfc_protocol.specs.Worlds.{log_of, is_up, committed_by, committed_unit};
    ghost use Rattle.system_tables.specs.OfLog.{is_unconfirmed};
    ghost use Rattle.unit_landscape.specs.Counted.{committed_total, received_total, executed_total};
    ghost use Rattle.unit_landscape.specs.LogAnswers.{may_go_at, first_to_go, AreTablesNow};

    /// The unit of this id, as its sender committed it, in constant time. None exactly where it committed none.
    pub(crate) fn unit(&self, tid: Tid) -> Option<&AleUnit>
        requires { IsLegal (R.meaning self.now.world.rules) tid.system (log_of self.now.world tid.system) }
        ensures { option_copied result ≡ committed_unit (R.meaning self.now.world.rules) self.now.world tid }
    {
        let system = tid.system();
        match self.both.tables.get(system.get() as usize - 1) {
            Some(its) => its.unit(tid.unit()),
            None => None,
        }
    }

    /// How many units a system committed.
    pub(crate) fn count(&self, system: SystemNo) -> usize
        requires { is_up self.now.world system ≡ true }
        ensures { result ≡ length (committed_by (R.meaning self.now.world.rules) self.now.world system) }
    {
        self.tables(system).count()
    }

    /// How many units all systems committed, those that are down too. It takes a time by their number alone.
    pub(crate) fn committed(&self) -> u64
        requires all { length self.now.world.systems ≡ (R.meaning self.now.world.rules).systems }
        requires few { committed_total (R.meaning self.now.world.rules) self.now.world < 2 ^ 64 }
        ensures { result ≡ committed_total (R.meaning self.now.world.rules) self.now.world }
    {
        let mut all = 0;
        for its in self.both.tables.as_slice() {
            all += its.count() as u64;
        }
        all
    }

    /// How many units all systems received, those that are down too.
    pub(crate) fn received(&self) -> u64
        requires all { length self.now.world.systems ≡ (R.meaning self.now.world.rules).systems }
        requires few { received_total (R.meaning self.now.world.rules) self.now.world < 2 ^ 64 }
        ensures { result ≡ received_total (R.meaning self.now.world.rules) self.now.world }
    {
        self.counted.received(self.both.tables.len())
    }

    /// How many units all systems executed, those that are down too.
    pub(crate) fn executed(&self) -> u64
        requires all { length self.now.world.systems ≡ (R.meaning self.now.world.rules).systems }
        requires few { executed_total (R.meaning self.now.world.rules) self.now.world < 2 ^ 64 }
        ensures { result ≡ executed_total (R.meaning self.now.world.rules) self.now.world }
    {
        self.counted.executed(self.both.tables.len())
    }

    /// Whether a system received the unit of this id and has not forgotten the id.
    pub(crate) fn is_known(&self, system: SystemNo, tid: Tid) -> bool
        requires { is_up self.now.world system ≡ true }
        ensures { result ≡ is_known tid (log_of self.now.world system) }
    {
        self.tables(system).is_seen(tid)
    }

    /// Whether the unit of this id is done at a system and not ended.
    pub(crate) fn is_unconfirmed(&self, system: SystemNo, tid: Tid) -> bool
        requires { is_up self.now.world system ≡ true }
        ensures { result ≡ is_unconfirmed tid (log_of self.now.world system) }
    {
        self.tables(system).is_unconfirmed(tid)
    }

    /// Whether the unit of this id is there at a system, in a direction, and not through.
    pub(crate) fn is_outstanding(&self, system: SystemNo, way: Way, tid: Tid) -> bool
        requires { is_up self.now.world system ≡ true }
        ensures { result ≡ option_map_or (is_outstanding (through way (log_of self.now.world system)))
            (unit_named tid (units_of way (committed_by (R.meaning self.now.world.rules) self.now.world system) (log_of self.now.world system))) false }
    {
        self.tables(system).is_outstanding(way, tid)
    }

    /// Whether the unit of this id waits at a system, in a direction, and may go.
    pub(crate) fn may_go(&self, system: SystemNo, way: Way, tid: Tid) -> bool
        requires { is_up self.now.world system ≡ true }
        ensures { HaveOneSender way (units_of way (committed_by (R.meaning self.now.world.rules) self.now.world system) (log_of self.now.world system))
            → result ≡ may_go_at (R.meaning self.now.world.rules) self.now.world system way tid }
    {
        self.tables(system).is_offered(way, tid)
    }

    /// The first unit that waits at a system, in a direction, and may go. None exactly where none may.
    pub(crate) fn first_to_go(&self, system: SystemNo, way: Way) -> Option<Tid>
        requires { is_up self.now.world system ≡ true }
        ensures { HaveOneSender way (units_of way (committed_by (R.meaning self.now.world.rules) self.now.world system) (log_of self.now.world system))
            → result ≡ first_to_go (R.meaning self.now.world.rules) self.now.world system way }
    {
        self.tables(system).first_offered(way)
    }

    /// The tables of a system that is up. They are those of its log and of the claims at it.
    pub(crate) fn tables(&self, system: SystemNo) -> &SystemTables<A>
        requires { is_up self.now.world system ≡ true }
        ensures tables { slice_get self.now.tables (system - 1) ≡ Some result.now }
        ensures agree { AreTablesNow A.stands (R.meaning self.now.world.rules) self.now.world system result.now }
    {
        &self.both.tables[system.get() as usize - 1]
    }
}

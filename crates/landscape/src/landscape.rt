//! The landscape: what it is, and what is read of it. Its calls are in `opening`, `reopening`, `commanding`, `changing`, `operating`, `remodelling`, `working`
//! and `executing`; what an operator is shown is in `showing`, and which units wait for their confirmation in `confirming`.

ghost use Rattle.std.specs.Prelude.{◌≡◌};

mod changing;
mod commanding;
mod confirming;
mod counting;
mod executing;
mod opening;
mod operating;
mod remodelling;
mod reopening;
mod showing;
mod working;

use ale_base::{OutOfMemory, SystemNo, Tid};
use ale_volumes::Volumes;
use dist_model::Model;
use document_state::{DocumentTables, ModelRules};
use status_log::Refusal;
use std::alloc::Global;
use std::sync::Arc;
use trfc_protocol::World;
use unit_core::{AleUnit, Record};
use unit_landscape::{Cause, OutClaim, UnitLandscape};

/// Systems that work by the models which their logs name: logs, claims and tables, over volumes.
#[derive(Drop)]
pub struct Landscape<V: Volumes> {
    alloc: Global,
    units: UnitLandscape<ModelRules, DocumentTables, V>,
}

impl<V: Volumes> std::marker::Model for Landscape<V> {
    ghost use Rattle.unit_landscape.specs.KeptWorlds.{KeptOf};
    ghost use Rattle.document_state.specs.declared.document_tables.DocumentTables.{DocumentTables};
    ghost use Rattle.document_state.specs.declared.model_rules.ModelRules.{ModelRules};
    ghost use Rattle.landscape.specs.Begun.{AreBegun};

    ghost Value = { KeptOf ModelRules DocumentTables V };

    ghost view = { λ landscape. landscape.units };

    ghost invariant = { λ landscape. AreBegun landscape.units.world };
}

impl<V: Volumes> Landscape<V> {
    ghost use Rattle.std.specs.Prelude.{◌≡◌, ◌-◌, ◌↔◌, true, false, IfOk, IfErr};
    ghost use Rattle.std.specs.Arc.{arc_value};
    ghost use Rattle.std.specs.Option.{option_copied, option_map};
    ghost use Rattle.document_state.specs.Tables.{AreTablesOf};
    ghost use Rattle.trfc_protocol.specs.Worlds.{log_of, is_up, committed_unit};
    ghost use Rattle.unit_journal.specs.OnDisk.{moments_at};
    ghost use Rattle.unit_journal.specs.Changes.{with_moment};
    ghost use Rattle.unit_landscape.specs.KeptWorlds.{IsKept, cause_at};
    ghost use Rattle.unit_landscape.specs.Kept.{IsLandscape};
    ghost use Rattle.unit_landscape.specs.Calls.{stands_out};
    ghost use Rattle.unit_landscape.specs.Quiet.{IsQuiet};
    ghost use Rattle.document_state.specs.Meaning.{model_meaning};
    ghost use Rattle.landscape.specs.Begun.{AreBegun};
    ghost use Rattle.landscape.specs.Crashes.{LeavesOpenable, LeavesSoundLogs};
    ghost use Rattle.landscape.specs.Standing.{StandAt, StandIfUp, WorksBy};

    /// The landscape of systems whose logs begin with one text, of a model of so many systems.
    pub fn new(alloc: Global, units: UnitLandscape<ModelRules, DocumentTables, V>) -> Landscape<V>
        requires { AreBegun units.world }
        ensures { result ≡ units }
    {
        Landscape { alloc, units }
    }

    /// The world: the logs and the claims. It is safe; the tables are in step with it, the volumes hold its logs, and all logs begin
    /// with one text, of a model of the systems. Whatever a crash leaves now is sound, and holds sound logs of that text: an opening with it
    /// does not refuse them.
    pub fn world(&self) -> &World<ModelRules>
        ensures world { result.now ≡ self.now.world }
        ensures safe { IsLandscape (λ rules. model_meaning rules.systems) self.now.world }
        ensures kept { IsKept (λ rules. model_meaning rules.systems) (λ tables log. AreTablesOf log tables) V.disk self.now }
        ensures begun { AreBegun self.now.world }
        ensures sound { LeavesSoundLogs V.disk self.now self.now }
        ensures opens { LeavesOpenable V.disk self.now self.now }
    {
        self.units.world()
    }

    /// The log of a system. It is empty where the landscape has no system of this number.
    pub fn log(&self, system: SystemNo) -> &[Record]
        ensures { result.now ≡ log_of self.now.world system }
    {
        self.units.log(system)
    }

    /// Whether a system is up.
    pub fn is_up(&self, system: SystemNo) -> bool
        ensures { result ≡ is_up self.now.world system }
    {
        self.units.is_up(system)
    }

    /// Why a system is down, if it is.
    pub fn cause(&self, system: SystemNo) -> Cause
        ensures { result ≡ cause_at self.now system }
    {
        self.units.cause(system)
    }

    /// The unit of this id, as its sender committed it, in constant time. None exactly where it committed none.
    pub fn unit(&self, tid: Tid) -> Option<&AleUnit>
        ensures { option_copied result ≡ committed_unit (model_meaning self.now.world.rules.systems) self.now.world tid }
    {
        self.units.unit(tid)
    }

    /// The moments of the entries of a system's log, oldest first: none of them where there is no such system.
    pub fn moments(&self, system: SystemNo) -> &[Option<u64>]
        ensures { result.now ≡ moments_at self.now.journals (system - 1) }
    {
        self.units.moments(system)
    }

    /// Sets the moment with which records are written from now on, in seconds since the beginning of 1970 in UTC. A record is never written
    /// with a moment below the last one of its log.
    pub fn set_moment(&mut self, moment: u64)
        ensures { self.new ≡ record self.old { journals = with_moment (Some moment) self.old.journals } }
    {
        self.units.set_moment(Some(moment));
    }

    /// Whether a claim stands. It takes no memory.
    pub fn holds(&self, claim: &OutClaim) -> bool
        ensures { result ≡ stands_out self.now.world claim.now }
    {
        self.units.holds(claim)
    }

    /// Whether nothing is left to do: no unit is offered at any system in either direction, and no unit that is done and not ended has
    /// both its systems up. It takes no memory.
    pub fn quiet(&self) -> bool
        ensures { (result ≡ true) ↔ IsQuiet (model_meaning self.now.world.rules.systems) self.now.world }
    {
        self.units.quiet()
    }

    /// The tables of a system. None exactly where it is down.
    pub fn tables(&self, system: SystemNo) -> Option<&DocumentTables>
        ensures { StandIfUp self.now.world system (option_copied result) }
    {
        let _ = self.units.world();
        if !self.units.is_up(system) {
            return None;
        }
        self.units.application(system)
    }

    /// The tables of a system by which a command is judged. `N2` comes exactly where the system is down. A call that ends at what they
    /// say leaves sound logs.
    fn up(&self, system: SystemNo) -> Result<&DocumentTables, Refusal>
        ensures up { IfOk result (λ tables. StandAt self.now.world system tables.now) }
        ensures down { IfErr result (λ why. (why ≡ Refusal.N2) × (is_up self.now.world system ≡ false)) }
        ensures sound { LeavesSoundLogs V.disk self.now self.now }
    {
        let _ = self.units.world();
        match self.tables(system) {
            Some(tables) => Ok(tables),
            None => Err(Refusal::N2),
        }
    }

    /// The model by which a system works, with which it is prepared what becomes of its units. None exactly where the system is down.
    pub fn model(&self, system: SystemNo) -> Result<Option<Arc<Model>>, OutOfMemory>
        ensures { IfOk result (λ model. WorksBy self.now.world system (option_map arc_value model)) }
    {
        let Some(tables) = self.tables(system) else {
            return Ok(None);
        };
        match tables.model() {
            Some(model) => Ok(Some(Arc::try_clone(model)?)),
            // Of a system that is up a model is in force.
            None => unreachable!(),
        }
    }

    /// The volumes.
    pub fn into_volumes(self) -> V
        ensures { result ≡ self.vols }
    {
        let Landscape { units, .. } = self;
        units.into_volumes()
    }
}

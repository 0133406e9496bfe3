//! Claims that are made, looked up and given up, and a system that falls. Nothing here appends a record.

use super::UnitLandscape;
use crate::{Cause, InClaim, OutClaim};
use ale_base::{OutOfMemory, SystemNo, Tid, Way};
use ale_volumes::Volumes;
use system_tables::Application;
use trfc_protocol::{HeldKind, Rules};
use unit_core::AleUnit;

impl<R: Rules, A: Application, V: Volumes> UnitLandscape<R, A, V> {
    ghost use Rattle.std.specs.Prelude.{◌≡◌, true, false, None, IfOk, OnErr};
    ghost use Rattle.std.specs.Option.{option_copied};
    ghost use Rattle.trfc_protocol.specs.declared.event.Event.TheVariants as event;
    ghost use Rattle.trfc_protocol.specs.declared.event.Action.TheVariants.{Revoke};
    ghost use Rattle.trfc_protocol.specs.Worlds.{is_up};
    ghost use Rattle.unit_landscape.specs.LogAnswers.{KeepsDisk, KeepsVolumes};
    ghost use Rattle.unit_landscape.specs.Ends.{Happened};
    ghost use Rattle.unit_landscape.specs.Calls.{stands_out, ClaimedOut, ClaimedIn};
    ghost use Rattle.unit_landscape.specs.Claiming.{IsNextOut, IsNextIn};

    /// Claims the first unit that is offered outbound at a system, to be shipped. None exactly where the system is down or nothing is
    /// offered there. After an `Err` nothing has changed.
    pub fn claim_out(&mut self, system: SystemNo) -> Result<Option<OutClaim>, OutOfMemory>
        ensures event { IfOk result (ClaimedOut (R.meaning self.old.world.rules) V.disk self.old self.new system) }
        ensures err { OnErr result (self.new ≡ self.old) }
        ensures volumes { KeepsVolumes self.old self.new }
    {
        let Some(unit) = self.next_out(system) else {
            return Ok(None);
        };
        let (tid, receiver) = (unit.tid, unit.receiver);
        let opening = self.kept.world().falls;
        let number = self.kept.claim_next(system, Way::Outgoing, tid)?;
        Ok(Some(OutClaim {
            number,
            tid,
            receiver,
            opening,
        }))
    }

    /// Claims the first unit that is offered inbound at a system, to be executed. None exactly where the system is down or nothing is
    /// offered there. After an `Err` nothing has changed.
    pub fn claim_in(&mut self, system: SystemNo) -> Result<Option<InClaim>, OutOfMemory>
        ensures event { IfOk result (ClaimedIn (R.meaning self.old.world.rules) V.disk self.old self.new system) }
        ensures err { OnErr result (self.new ≡ self.old) }
        ensures volumes { KeepsVolumes self.old self.new }
    {
        let Some(tid) = self.next_in(system) else {
            return Ok(None);
        };
        let opening = self.kept.world().falls;
        let number = self.kept.claim_next(system, Way::Incoming, tid)?;
        Ok(Some(InClaim {
            number,
            tid,
            system,
            opening,
        }))
    }

    /// Whether a claim stands. It takes no memory.
    pub fn holds(&self, claim: &OutClaim) -> bool
        ensures { result ≡ stands_out self.now.world claim.now }
    {
        match self.kept.world().claim_of(claim.number) {
            Some(held) => held.tid == claim.tid && held.kind == HeldKind::Out,
            None => false,
        }
    }

    /// Gives up all claims. It takes no memory.
    pub fn revoke(&mut self)
        ensures event { Happened (R.meaning self.old.world.rules) V.disk self.old self.new (event.Operator Revoke) }
        ensures volumes { KeepsVolumes self.old self.new }
    {
        self.kept.revoke();
    }

    /// A system that is up falls, with nothing to be found at its opening. False where it is down, and then nothing has changed. It
    /// takes no memory.
    pub fn crash(&mut self, system: SystemNo) -> bool
        ensures up { result ≡ is_up self.old.world system }
        ensures event { result ≡ true → Happened (R.meaning self.old.world.rules) V.disk self.old self.new (event.Fall system None) }
        ensures same { result ≡ false → self.new ≡ self.old }
        ensures volumes { KeepsDisk self.old self.new }
    {
        if !self.kept.world().is_up(system) {
            return false;
        }
        self.kept.fall(system, Cause::Crashed);
        true
    }

    /// The first unit that is offered outbound at a system. None exactly where the system is down or nothing is offered there.
    pub(crate) fn next_out(&self, system: SystemNo) -> Option<&AleUnit>
        ensures { IsNextOut (R.meaning self.now.world.rules) self.now.world system (option_copied result) }
    {
        if !self.kept.world().is_up(system) {
            return None;
        }
        match self.kept.first_to_go(system, Way::Outgoing) {
            Some(tid) => self.kept.unit(tid),
            None => None,
        }
    }

    /// The id of the first unit that is offered inbound at a system. None exactly where the system is down or nothing is offered there.
    pub(crate) fn next_in(&self, system: SystemNo) -> Option<Tid>
        ensures { IsNextIn (R.meaning self.now.world.rules) self.now.world system result }
    {
        if !self.kept.world().is_up(system) {
            return None;
        }
        self.kept.first_to_go(system, Way::Incoming)
    }
}

//! What a system committed and offers, which unit is offered, and how an arrival is answered.

ghost use Rattle.std.specs.Prelude.{◌≡◌};
ghost use Rattle.trfc_protocol.specs.Offered.{is_stopped_outbound, is_stopped_inbound};

use crate::legal::{is_free_inbound, is_free_outbound};
use crate::{Answer, HeldKind, Rules, World};
use ale_base::{OutOfMemory, SystemNo, Tid, Way};
use std::alloc::Global;
use unit_core::{
    AleUnit, Record, done_in, forgotten_in, heads_outbound, is_among, is_listed, is_stopped,
    received, unit_named,
};

impl<R: Rules> World<R> {
    ghost use Rattle.std.specs.Prelude.{true, ◌≡◌, IfOk};
    ghost use Rattle.trfc_protocol.specs.Worlds.{log_of, state_of, offers_now, committed_by, committed_unit};
    ghost use Rattle.trfc_protocol.specs.Offered.{is_offered_outbound, is_offered_inbound, heads_at_sender, may_arrive, answer_to, offers_received_now};
    ghost use Rattle.trfc_protocol.specs.Legal.{IsLegal};
    ghost use Rattle.trfc_protocol.specs.Safe.{IsSafe};

    /// The log of a system, which is legal.
    pub(crate) fn legal_log(&self, system: SystemNo) -> &[Record]
        requires { IsSafe R.meaning self.now }
        ensures log { result.now ≡ log_of self.now system }
        ensures legal { IsLegal (R.meaning self.now.rules) system result.now }
    {
        self.log(system)
    }

    /// The units that a system committed, in order. There are none where the landscape has no system of this number.
    pub fn committed_by(&self, alloc: Global, system: SystemNo) -> Result<Vec<AleUnit>, OutOfMemory>
        requires { IsSafe R.meaning self.now }
        ensures { IfOk result (λ units. units.items ≡ committed_by (R.meaning self.now.rules) self.now system) }
    {
        if !self.is_known(system) {
            return Ok(Vec::new(alloc));
        }
        self.rules.units(alloc, system, self.legal_log(system))
    }

    /// The unit of this id, as its sender committed it. None exactly where it did not.
    pub fn committed_unit(&self, alloc: Global, tid: Tid) -> Result<Option<AleUnit>, OutOfMemory>
        requires { IsSafe R.meaning self.now }
        ensures { IfOk result (λ unit. unit ≡ committed_unit (R.meaning self.now.rules) self.now tid) }
    {
        let units = self.committed_by(alloc, tid.system())?;
        match unit_named(tid, units.as_slice()) {
            Some(unit) => Ok(Some(unit.clone()?)),
            None => Ok(None),
        }
    }

    /// Whether the unit is offered at its sender: the sender is up, the unit is outstanding, not marked and not claimed,
    /// it heads each of its outbound queues, and none of these is stopped.
    pub fn is_offered_outbound(&self, alloc: Global, tid: Tid) -> Result<bool, OutOfMemory>
        requires { IsSafe R.meaning self.now }
        ensures { IfOk result (λ offered. offered ≡ is_offered_outbound (R.meaning self.now.rules) self.now tid) }
    {
        let system = tid.system();
        if !self.is_up(system) || self.is_claimed(HeldKind::Out, tid) {
            return Ok(false);
        }
        let log = self.legal_log(system);
        if !is_free_outbound(alloc, &self.rules, system, log, tid)? {
            return Ok(false);
        }
        match self.committed_unit(alloc, tid)? {
            Some(unit) => Ok(!is_stopped_outbound(log, &unit)),
            None => Ok(false),
        }
    }

    /// Whether the unit is offered at its receiver: the receiver is up and has the unit, it is not executed, not marked
    /// and not claimed, it heads each of its inbound queues, and none of these is stopped.
    pub fn is_offered_inbound(
        &self,
        alloc: Global,
        system: SystemNo,
        tid: Tid,
    ) -> Result<bool, OutOfMemory>
        ensures { IfOk result (λ offered. offered ≡ is_offered_inbound self.now system tid) }
    {
        if !self.is_up(system) || self.is_claimed(HeldKind::In, tid) {
            return Ok(false);
        }
        let log = self.log(system);
        if !is_free_inbound(alloc, log, tid)? {
            return Ok(false);
        }
        let units = received(alloc, log)?;
        match unit_named(tid, units.as_slice()) {
            Some(unit) => Ok(!is_stopped_inbound(log, unit)),
            None => Ok(false),
        }
    }

    /// Whether a system offers the function of a unit.
    pub fn offers(
        &self,
        alloc: Global,
        system: SystemNo,
        unit: &AleUnit,
    ) -> Result<bool, OutOfMemory>
        requires { IsSafe R.meaning self.now }
        ensures { IfOk result (λ offers. offers ≡ offers_now (R.meaning self.now.rules) self.now system unit.now.function) }
    {
        if !self.is_known(system) {
            return Ok(false);
        }
        self.rules
            .offers(alloc, system, self.legal_log(system), &unit.function)
    }

    /// Whether a system offers the function of a unit that it received.
    pub fn offers_received(
        &self,
        alloc: Global,
        system: SystemNo,
        tid: Tid,
    ) -> Result<bool, OutOfMemory>
        requires { IsSafe R.meaning self.now }
        ensures { IfOk result (λ offers. offers ≡ offers_received_now (R.meaning self.now.rules) self.now system tid) }
    {
        let units = received(alloc, self.log(system))?;
        match unit_named(tid, units.as_slice()) {
            Some(unit) => self.offers(alloc, system, unit),
            None => Ok(false),
        }
    }

    /// Whether the unit heads its outbound queues at its sender.
    fn heads_at_sender(&self, alloc: Global, unit: &AleUnit) -> Result<bool, OutOfMemory>
        requires { IsSafe R.meaning self.now }
        ensures { IfOk result (λ heads. heads ≡ heads_at_sender (R.meaning self.now.rules) self.now unit.now) }
    {
        let sender = unit.tid.system();
        let units = self.committed_by(alloc, sender)?;
        let done = done_in(alloc, self.log(sender))?;
        Ok(heads_outbound(done.as_slice(), units.as_slice(), unit))
    }

    /// Whether a committed unit may arrive: its receiver has not forgotten it, and has received it or it heads its
    /// outbound queues.
    pub fn may_arrive(&self, alloc: Global, unit: &AleUnit) -> Result<bool, OutOfMemory>
        requires { IsSafe R.meaning self.now }
        ensures { IfOk result (λ may. may ≡ may_arrive (R.meaning self.now.rules) self.now unit.now) }
    {
        let log = self.log(unit.receiver);
        let forgotten = forgotten_in(alloc, log)?;
        if is_listed(unit.tid, forgotten.as_slice()) {
            return Ok(false);
        }
        let units = received(alloc, log)?;
        Ok(is_among(unit.tid, units.as_slice()) || self.heads_at_sender(alloc, unit)?)
    }

    /// How the receiver answers the arrival of a unit that may arrive, so of one that it has not forgotten: the first of
    /// these that applies. `Down` where it is down, `Known` where it received the unit, `Busy` where a direct run of it
    /// is claimed, `SysFail` where it has no inbound queue and the receiver does not offer its function, `Run` where it has no inbound
    /// queue, and `New` otherwise.
    pub fn answer_to(&self, alloc: Global, unit: &AleUnit) -> Result<Answer, OutOfMemory>
        requires safe { IsSafe R.meaning self.now }
        requires arrives { may_arrive (R.meaning self.now.rules) self.now unit.now ≡ true }
        ensures { IfOk result (λ answer. answer ≡ answer_to (R.meaning self.now.rules) self.now unit.now) }
    {
        let receiver = unit.receiver;
        if !self.is_up(receiver) {
            return Ok(Answer::Down);
        }
        let units = received(alloc, self.log(receiver))?;
        if is_among(unit.tid, units.as_slice()) {
            return Ok(Answer::Known);
        }
        if self.is_claimed(HeldKind::Direct, unit.tid) {
            return Ok(Answer::Busy);
        }
        if !unit.inq.is_empty() {
            return Ok(Answer::New);
        }
        if self.offers(alloc, receiver, unit)? {
            Ok(Answer::Run)
        } else {
            Ok(Answer::SysFail)
        }
    }
}

/// Whether one of the unit's outbound queues is stopped.
fn is_stopped_outbound(log: &[Record], unit: &AleUnit) -> bool
    ensures { result ≡ is_stopped_outbound log.now unit.now }
{
    let destination = unit.receiver.get();
    unit.outq
        .iter()
        .any(|name| is_stopped(Way::Outgoing, destination, *name, log))
}

/// Whether one of the unit's inbound queues is stopped.
fn is_stopped_inbound(log: &[Record], unit: &AleUnit) -> bool
    ensures { result ≡ is_stopped_inbound log.now unit.now }
{
    unit.inq
        .iter()
        .any(|name| is_stopped(Way::Incoming, 0, *name, log))
}

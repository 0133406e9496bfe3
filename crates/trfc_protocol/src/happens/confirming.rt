//! A unit that is done is confirmed: its receiver forgets the id, and then its sender ends it.

use crate::legal::may_end;
use crate::{Event, ReplyTo, Rules, World};
use ale_base::{OutOfMemory, SystemNo, Tid};
use std::alloc::Global;
use unit_core::{AleUnit, Record, done_in, forgotten_in, is_listed};

impl<R: Rules> World<R> {
    ghost use Rattle.std.specs.Prelude.{◌≡◌, ◌&&◌, not, OnOk, OnErr, IfOk};
    ghost use Rattle.unit_core.specs.Filters.{done_in, ended_in, forgotten_in};
    ghost use Rattle.unit_core.specs.Queues.{is_listed};
    ghost use Rattle.trfc_protocol.specs.Worlds.{log_of, is_up};
    ghost use Rattle.trfc_protocol.specs.Happens.{happens};
    ghost use Rattle.trfc_protocol.specs.Safe.{IsSafe};

    /// The confirmation of a unit that is done arrives, and its receiver forgets the id, unless it has.
    pub(crate) fn confirm(&mut self, alloc: Global, tid: Tid) -> Result<(), OutOfMemory>
        requires { IsSafe R.meaning self.old }
        ensures ok { OnOk result (self.new ≡ happens (R.meaning self.old.rules) self.old (Event.Confirm tid)) }
        ensures err { OnErr result (self.new ≡ self.old) }
    {
        let Some(unit) = self.committed_unit(alloc, tid)? else {
            return Ok(());
        };
        if !self.may_forget(alloc, &unit)? {
            return Ok(());
        }
        self.append(unit.receiver, Record::Forget { tid: unit.tid })
    }

    /// Whether a confirmed unit is to be forgotten: it is done, its receiver is up and has not forgotten it.
    fn may_forget(&self, alloc: Global, unit: &AleUnit) -> Result<bool, OutOfMemory>
        ensures { IfOk result (λ may. may ≡ (is_listed unit.now.tid (done_in (log_of self.now unit.now.tid.system)) && is_up self.now unit.now.receiver
            && not (is_listed unit.now.tid (forgotten_in (log_of self.now unit.now.receiver))))) }
    {
        if !self.is_done(alloc, unit.tid)? {
            return Ok(false);
        }
        if !self.is_up(unit.receiver) {
            return Ok(false);
        }
        Ok(!self.is_forgotten(alloc, unit.receiver, unit.tid)?)
    }

    /// Whether the unit of this id is done at its sender.
    pub(crate) fn is_done(&self, alloc: Global, tid: Tid) -> Result<bool, OutOfMemory>
        ensures { IfOk result (λ done. done ≡ is_listed tid (done_in (log_of self.now tid.system))) }
    {
        let done = done_in(alloc, self.log(tid.system()))?;
        Ok(is_listed(tid, done.as_slice()))
    }

    /// Whether a system forgot this id.
    pub(crate) fn is_forgotten(
        &self,
        alloc: Global,
        system: SystemNo,
        tid: Tid,
    ) -> Result<bool, OutOfMemory>
        ensures { IfOk result (λ forgotten. forgotten ≡ is_listed tid (forgotten_in (log_of self.now system))) }
    {
        let forgotten = forgotten_in(alloc, self.log(system))?;
        Ok(is_listed(tid, forgotten.as_slice()))
    }

    /// The sender of a unit learns that its id is forgotten.
    pub(crate) fn end(&mut self, alloc: Global, tid: Tid) -> Result<(), OutOfMemory>
        requires { IsSafe R.meaning self.old }
        ensures ok { OnOk result (self.new ≡ happens (R.meaning self.old.rules) self.old (Event.Reply (ReplyTo.Forgotten tid))) }
        ensures err { OnErr result (self.new ≡ self.old) }
    {
        let Some(unit) = self.committed_unit(alloc, tid)? else {
            return Ok(());
        };
        if !self.is_ending(alloc, &unit, tid)? {
            return Ok(());
        }
        self.append(tid.system(), Record::Ended { tid })
    }

    /// Whether the unit of this id is to be ended: its sender is up, it is done and not ended there, and its receiver has
    /// forgotten it.
    fn is_ending(&self, alloc: Global, unit: &AleUnit, tid: Tid) -> Result<bool, OutOfMemory>
        ensures { IfOk result (λ is. is ≡ (is_up self.now tid.system && is_listed tid (done_in (log_of self.now tid.system))
            && not (is_listed tid (ended_in (log_of self.now tid.system)))
            && is_listed tid (forgotten_in (log_of self.now unit.now.receiver)))) }
    {
        if !self.is_up(tid.system()) || !may_end(alloc, self.log(tid.system()), tid)? {
            return Ok(false);
        }
        self.is_forgotten(alloc, unit.receiver, tid)
    }
}

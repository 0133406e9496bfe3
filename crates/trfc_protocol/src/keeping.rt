//! Which record a system may be writing as it falls: one that an event which is possible now appends there.

use crate::legal::{is_commit, may_end};
use crate::{Answer, HeldKind, Rules, World};
use ale_base::{Mark, OutOfMemory, SystemNo, Tid};
use std::alloc::Global;
use unit_core::{AleUnit, Record, is_same_unit};

impl<R: Rules> World<R> {
    ghost use Rattle.std.specs.Prelude.{◌≡◌, ◌↔◌, IsTrue, IfOk};
    ghost use Rattle.unit_core.specs.declared.records.Record.TheVariants.{Done, Ended, Accept, Execute, Direct, Fail, Forget};
    ghost use Rattle.trfc_protocol.specs.Keeping.{IsWritten, may_keep, may_mark, of_committed};
    ghost use Rattle.unit_core.specs.SameUnit.{is_same_unit};
    ghost use Rattle.trfc_protocol.specs.Safe.{IsSafe};

    /// Whether a record may be the one that a system was writing as it fell: exactly where there is an event that is possible
    /// now and appends this record there.
    pub fn may_keep(
        &self,
        alloc: Global,
        system: SystemNo,
        next: &Record,
    ) -> Result<bool, OutOfMemory>
        requires { IsSafe R.meaning self.now }
        ensures decided { IfOk result (λ may. may ≡ may_keep (R.meaning self.now.rules) self.now system next.now) }
        ensures written { IfOk result (λ may. IsTrue may ↔ IsWritten (R.meaning self.now.rules) self.now system next.now) }
    {
        self.is_kept(alloc, system, next)
    }

    /// Whether a record may be the one that a system was writing as it fell, by the kind of the record.
    fn is_kept(&self, alloc: Global, system: SystemNo, next: &Record) -> Result<bool, OutOfMemory>
        requires { IsSafe R.meaning self.now }
        ensures { IfOk result (λ may. may ≡ may_keep (R.meaning self.now.rules) self.now system next.now) }
    {
        match next {
            Record::Mark { tid, cause } => self.may_mark(alloc, system, *tid, *cause),
            Record::Done { tid } => self.may_be_done(alloc, system, *tid),
            Record::Ended { tid } => self.may_be_ended(alloc, system, *tid),
            Record::Accept { unit } => self.may_accept(alloc, system, unit),
            Record::Execute { tid } => self.may_execute(alloc, system, *tid),
            Record::Direct { unit } => self.may_end_run(alloc, system, unit),
            Record::Fail { tid } => self.may_fail(alloc, system, *tid),
            Record::Forget { tid } => self.may_be_forgotten(alloc, system, *tid),
            Record::Commit { .. } | Record::Dispatch => {
                self.may_write(alloc, is_commit(next), system, next)
            }
            _ => self.may_write(alloc, self.may_operate(next), system, next),
        }
    }

    /// A Mark: the unit is shipped, and for SYSFAIL its receiver can't execute it.
    fn may_mark(
        &self,
        alloc: Global,
        system: SystemNo,
        tid: Tid,
        cause: Mark,
    ) -> Result<bool, OutOfMemory>
        requires { IsSafe R.meaning self.now }
        ensures { IfOk result (λ may. may ≡ may_mark (R.meaning self.now.rules) self.now system tid cause) }
    {
        if !self.is_claimed_at(HeldKind::Out, system, tid) {
            return Ok(false);
        }
        match cause {
            Mark::Cpicerr => Ok(true),
            Mark::Sysfail => match self.committed_unit(alloc, tid)? {
                Some(unit) => self.is_refused(alloc, &unit),
                None => Ok(false),
            },
        }
    }

    /// A Done: the unit is shipped, and was received.
    fn may_be_done(&self, alloc: Global, system: SystemNo, tid: Tid) -> Result<bool, OutOfMemory>
        requires { IsSafe R.meaning self.now }
        ensures { IfOk result (λ may. may ≡ may_keep (R.meaning self.now.rules) self.now system (Done tid)) }
    {
        if !self.is_claimed_at(HeldKind::Out, system, tid) {
            return Ok(false);
        }
        match self.committed_unit(alloc, tid)? {
            Some(unit) => self.is_received(alloc, &unit),
            None => Ok(false),
        }
    }

    /// An Ended: the unit is done and not ended at its sender, which is up, and its receiver has forgotten it.
    fn may_be_ended(&self, alloc: Global, system: SystemNo, tid: Tid) -> Result<bool, OutOfMemory>
        requires { IsSafe R.meaning self.now }
        ensures { IfOk result (λ may. may ≡ may_keep (R.meaning self.now.rules) self.now system (Ended tid)) }
    {
        if tid.system() != system || !self.is_up(system) {
            return Ok(false);
        }
        if !may_end(alloc, self.log(system), tid)? {
            return Ok(false);
        }
        match self.committed_unit(alloc, tid)? {
            Some(unit) => self.is_forgotten(alloc, unit.receiver, tid),
            None => Ok(false),
        }
    }

    /// Whether a unit is, byte for byte, the one that its sender committed.
    fn is_committed(&self, alloc: Global, unit: &AleUnit) -> Result<bool, OutOfMemory>
        requires { IsSafe R.meaning self.now }
        ensures { IfOk result (λ is. is ≡ of_committed (R.meaning self.now.rules) self.now (is_same_unit unit.now) unit.now.tid) }
    {
        match self.committed_unit(alloc, unit.tid)? {
            Some(own) => Ok(is_same_unit(unit, &own)),
            None => Ok(false),
        }
    }

    /// An Accept: the unit was committed, and may arrive, and its receiver would take it in.
    fn may_accept(
        &self,
        alloc: Global,
        system: SystemNo,
        unit: &AleUnit,
    ) -> Result<bool, OutOfMemory>
        requires { IsSafe R.meaning self.now }
        ensures { IfOk result (λ may. may ≡ may_keep (R.meaning self.now.rules) self.now system (Accept unit.now)) }
    {
        if unit.receiver != system || !self.is_committed(alloc, unit)? {
            return Ok(false);
        }
        if !self.may_arrive(alloc, unit)? {
            return Ok(false);
        }
        match self.answer_to(alloc, unit)? {
            Answer::New => Ok(true),
            _ => Ok(false),
        }
    }

    /// An Execute: the unit is being executed, and its system offers the function.
    fn may_execute(&self, alloc: Global, system: SystemNo, tid: Tid) -> Result<bool, OutOfMemory>
        requires { IsSafe R.meaning self.now }
        ensures { IfOk result (λ may. may ≡ may_keep (R.meaning self.now.rules) self.now system (Execute tid)) }
    {
        if !self.is_claimed_at(HeldKind::In, system, tid) {
            return Ok(false);
        }
        self.offers_received(alloc, system, tid)
    }

    /// A Fail: the unit is being executed, and its system does not offer the function.
    fn may_fail(&self, alloc: Global, system: SystemNo, tid: Tid) -> Result<bool, OutOfMemory>
        requires { IsSafe R.meaning self.now }
        ensures { IfOk result (λ may. may ≡ may_keep (R.meaning self.now.rules) self.now system (Fail tid)) }
    {
        if !self.is_claimed_at(HeldKind::In, system, tid) {
            return Ok(false);
        }
        Ok(!self.offers_received(alloc, system, tid)?)
    }

    /// A Direct: a direct run of the unit is under way, it was committed, and the system offers its function.
    fn may_end_run(
        &self,
        alloc: Global,
        system: SystemNo,
        unit: &AleUnit,
    ) -> Result<bool, OutOfMemory>
        requires { IsSafe R.meaning self.now }
        ensures { IfOk result (λ may. may ≡ may_keep (R.meaning self.now.rules) self.now system (Direct unit.now)) }
    {
        if !self.is_claimed_at(HeldKind::Direct, system, unit.tid)
            || !self.is_committed(alloc, unit)?
        {
            return Ok(false);
        }
        self.offers(alloc, system, unit)
    }

    /// A Forget: the unit is done, and its receiver is this system, which is up and has not forgotten it.
    fn may_be_forgotten(
        &self,
        alloc: Global,
        system: SystemNo,
        tid: Tid,
    ) -> Result<bool, OutOfMemory>
        requires { IsSafe R.meaning self.now }
        ensures { IfOk result (λ may. may ≡ may_keep (R.meaning self.now.rules) self.now system (Forget tid)) }
    {
        if !self.is_done(alloc, tid)? || !self.is_up(system) {
            return Ok(false);
        }
        if self.is_forgotten(alloc, system, tid)? {
            return Ok(false);
        }
        match self.committed_unit(alloc, tid)? {
            Some(unit) => Ok(unit.receiver == system),
            None => Ok(false),
        }
    }
}

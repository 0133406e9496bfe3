//! A unit is sent: its sender claims it, and it arrives at its receiver.

use crate::{Answer, Event, HeldKind, Rules, World};
use ale_base::{OutOfMemory, Tid};
use std::alloc::Global;
use unit_core::{AleUnit, Record};

impl<R: Rules> World<R> {
    ghost use Rattle.std.specs.Prelude.{◌≡◌, OnOk, OnErr};
    ghost use Rattle.trfc_protocol.specs.RecordOf.{record_of_answer};
    ghost use Rattle.trfc_protocol.specs.Happens.{happens, written, with_run};
    ghost use Rattle.trfc_protocol.specs.Safe.{IsSafe};

    /// A unit that is offered outbound is claimed by its sender.
    pub(crate) fn claim_outbound(&mut self, alloc: Global, tid: Tid) -> Result<(), OutOfMemory>
        requires { IsSafe R.meaning self.old }
        ensures ok { OnOk result (self.new ≡ happens (R.meaning self.old.rules) self.old (Event.Claim tid)) }
        ensures err { OnErr result (self.new ≡ self.old) }
    {
        if !self.is_offered_outbound(alloc, tid)? {
            return Ok(());
        }
        self.claim(tid, tid.system(), HeldKind::Out)
    }

    /// A unit arrives at its receiver.
    pub(crate) fn arrive(&mut self, alloc: Global, tid: Tid) -> Result<(), OutOfMemory>
        requires { IsSafe R.meaning self.old }
        ensures ok { OnOk result (self.new ≡ happens (R.meaning self.old.rules) self.old (Event.Arrive tid)) }
        ensures err { OnErr result (self.new ≡ self.old) }
    {
        let Some(unit) = self.committed_unit(alloc, tid)? else {
            return Ok(());
        };
        if !self.may_arrive(alloc, &unit)? {
            return Ok(());
        }
        let answer = self.answer_to(alloc, &unit)?;
        self.follow(answer, unit)
    }

    /// The receiver does as it answers: it takes the unit in, or begins to run it at once, or does nothing.
    fn follow(&mut self, answer: Answer, unit: AleUnit) -> Result<(), OutOfMemory>
        ensures ok { OnOk result (self.new ≡ written (record_of_answer unit answer) (with_run self.old unit answer)) }
        ensures err { OnErr result (self.new ≡ self.old) }
    {
        match answer {
            Answer::New => self.append(unit.receiver, Record::Accept { unit }),
            Answer::Run => self.claim(unit.tid, unit.receiver, HeldKind::Direct),
            Answer::Down | Answer::Known | Answer::Busy | Answer::SysFail => Ok(()),
        }
    }
}

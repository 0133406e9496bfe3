//! The sender of a unit learns what became of its shipment, or that the request or the reply is lost.

use crate::{CoreAnswer, Event, Held, HeldKind, ReplyTo, Rules, World};
use ale_base::{Mark, OutOfMemory};
use std::alloc::Global;
use unit_core::{AleUnit, Record, is_among, received};

impl<R: Rules> World<R> {
    ghost use Rattle.std.specs.Prelude.{◌≡◌, ◌&&◌, not, OnOk, OnErr, IfOk};
    ghost use Rattle.unit_core.specs.Filters.{received};
    ghost use Rattle.unit_core.specs.Queues.{is_among};
    ghost use Rattle.trfc_protocol.specs.Legal.{is_empty};
    ghost use Rattle.trfc_protocol.specs.Worlds.{log_of, offers_now, without_claim};
    ghost use Rattle.trfc_protocol.specs.RecordOf.{record_of_reply};
    ghost use Rattle.trfc_protocol.specs.Happens.{happens, ends_with};
    ghost use Rattle.trfc_protocol.specs.Safe.{IsSafe};

    /// The reply to a shipment arrives.
    pub(crate) fn reply_to_claim(
        &mut self,
        alloc: Global,
        number: u64,
        answer: CoreAnswer,
    ) -> Result<(), OutOfMemory>
        requires { IsSafe R.meaning self.old }
        ensures ok { OnOk result (self.new ≡ happens (R.meaning self.old.rules) self.old (Event.Reply (ReplyTo.Claim number answer))) }
        ensures err { OnErr result (self.new ≡ self.old) }
    {
        let Some(held) = self.claim_of(number).copied() else {
            return Ok(());
        };
        if held.kind != HeldKind::Out {
            return Ok(());
        }
        match answer {
            CoreAnswer::Done => self.reply_done(alloc, &held),
            CoreAnswer::SysFail => self.reply_sysfail(alloc, &held),
            CoreAnswer::Busy => self.reply_busy(&held),
        }
    }

    /// The unit's sender learns that its receiver has it.
    fn reply_done(&mut self, alloc: Global, held: &Held) -> Result<(), OutOfMemory>
        requires { IsSafe R.meaning self.old }
        ensures ok { OnOk result (self.new ≡ ends_with self.old held.now (record_of_reply (R.meaning self.old.rules) self.old CoreAnswer.Done held.now HeldKind.Out)) }
        ensures err { OnErr result (self.new ≡ self.old) }
    {
        let Some(unit) = self.committed_unit(alloc, held.tid)? else {
            return Ok(());
        };
        if !self.is_received(alloc, &unit)? {
            return Ok(());
        }
        self.close(held, Record::Done { tid: held.tid })
    }

    /// Whether a unit was received by its receiver.
    pub(crate) fn is_received(&self, alloc: Global, unit: &AleUnit) -> Result<bool, OutOfMemory>
        ensures { IfOk result (λ is. is ≡ is_among unit.now.tid (received (log_of self.now unit.now.receiver))) }
    {
        let units = received(alloc, self.log(unit.receiver))?;
        Ok(is_among(unit.tid, units.as_slice()))
    }

    /// The unit's sender learns that its receiver does not offer its function.
    fn reply_sysfail(&mut self, alloc: Global, held: &Held) -> Result<(), OutOfMemory>
        requires { IsSafe R.meaning self.old }
        ensures ok { OnOk result (self.new ≡ ends_with self.old held.now (record_of_reply (R.meaning self.old.rules) self.old CoreAnswer.SysFail held.now HeldKind.Out)) }
        ensures err { OnErr result (self.new ≡ self.old) }
    {
        let Some(unit) = self.committed_unit(alloc, held.tid)? else {
            return Ok(());
        };
        if !self.is_refused(alloc, &unit)? {
            return Ok(());
        }
        let next = Record::Mark {
            tid: held.tid,
            cause: Mark::Sysfail,
        };
        self.close(held, next)
    }

    /// Whether a unit has no inbound queue, and its receiver does not offer its function.
    pub(crate) fn is_refused(&self, alloc: Global, unit: &AleUnit) -> Result<bool, OutOfMemory>
        requires { IsSafe R.meaning self.now }
        ensures { IfOk result (λ is. is ≡ (is_empty unit.now.inq && not (offers_now (R.meaning self.now.rules) self.now unit.now.receiver unit.now.function))) }
    {
        Ok(unit.inq.is_empty() && !self.offers(alloc, unit.receiver, unit)?)
    }

    /// The unit's sender learns that a direct run of it is under way, and drops its claim alone.
    fn reply_busy(&mut self, held: &Held) -> Result<(), OutOfMemory>
        ensures ok { OnOk result (self.new ≡ without_claim self.old held.now.number) }
        ensures err { OnErr result (self.new ≡ self.old) }
    {
        self.release(held.number);
        Ok(())
    }

    /// The request or the reply of a claim is lost, and its unit is marked.
    pub(crate) fn lose(&mut self, number: u64) -> Result<(), OutOfMemory>
        ensures ok { OnOk result (self.new ≡ happens (R.meaning self.old.rules) self.old (Event.LoseRequest number)) }
        ensures err { OnErr result (self.new ≡ self.old) }
    {
        let Some(held) = self.claim_of(number).copied() else {
            return Ok(());
        };
        if held.kind != HeldKind::Out {
            return Ok(());
        }
        let next = Record::Mark {
            tid: held.tid,
            cause: Mark::Cpicerr,
        };
        self.close(&held, next)
    }
}

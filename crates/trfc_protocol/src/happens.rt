//! What each event makes of a world, by the headings of the protocol's page: records of documents and of the operator here,
//! and in the files below how a unit is sent, executed, replied to and confirmed, and how a system falls and is opened. Only
//! `step` calls it.

mod confirming;
mod executing;
mod falling;
mod replying;
mod sending;

use crate::legal::{is_commit, is_model, is_operators, may_follow};
use crate::{Action, Event, Held, ReplyTo, Rules, World};
use ale_base::{Items, OutOfMemory, SystemNo};
use std::alloc::Global;
use unit_core::Record;

impl<R: Rules> World<R> {
    ghost use Rattle.std.specs.Prelude.{◌≡◌, [], OnOk, OnErr, IfOk};
    ghost use Rattle.trfc_protocol.specs.Worlds.{with_record, without_claim};
    ghost use Rattle.trfc_protocol.specs.RecordOf.{may_operate, record_asked};
    ghost use Rattle.trfc_protocol.specs.Happens.{happens, written};
    ghost use Rattle.trfc_protocol.specs.Keeping.{may_append};
    ghost use Rattle.trfc_protocol.specs.Safe.{IsSafe};

    /// Lets an event happen. An event makes one record or one claim at most, and that is the one step that can fail, so
    /// after an `Err` nothing changed.
    pub(crate) fn happen(&mut self, alloc: Global, event: &Event) -> Result<(), OutOfMemory>
        requires { IsSafe R.meaning self.old }
        ensures ok { OnOk result (self.new ≡ happens (R.meaning self.old.rules) self.old event.now) }
        ensures err { OnErr result (self.new ≡ self.old) }
    {
        match event {
            Event::Commit { system, what } => self.write(alloc, is_commit(what), *system, what),
            Event::Claim { tid } => self.claim_outbound(alloc, *tid),
            Event::Arrive { tid } => self.arrive(alloc, *tid),
            Event::Run { tid } => self.claim_inbound(alloc, *tid),
            Event::Finish { number } => self.finish(alloc, *number),
            Event::Fail { number } => self.fail(alloc, *number),
            Event::Reply { to } => self.reply(alloc, to),
            Event::LoseRequest { number } | Event::LoseReply { number } => self.lose(*number),
            Event::Confirm { tid } => self.confirm(alloc, *tid),
            Event::LoseConfirm { .. } => Ok(()),
            Event::Operator { action } => self.operate(alloc, action),
            Event::Fall { system, kept } => self.fall_with(alloc, *system, kept),
            Event::Open { system } => self.open_fallen(*system),
        }
    }

    /// A reply arrives.
    fn reply(&mut self, alloc: Global, to: &ReplyTo) -> Result<(), OutOfMemory>
        requires { IsSafe R.meaning self.old }
        ensures ok { OnOk result (self.new ≡ happens (R.meaning self.old.rules) self.old (Event.Reply to.now)) }
        ensures err { OnErr result (self.new ≡ self.old) }
    {
        match to {
            ReplyTo::Claim(number, answer) => self.reply_to_claim(alloc, *number, *answer),
            ReplyTo::Forgotten(tid) => self.end(alloc, *tid),
        }
    }

    /// An operator or the application acts.
    fn operate(&mut self, alloc: Global, action: &Action) -> Result<(), OutOfMemory>
        requires { IsSafe R.meaning self.old }
        ensures ok { OnOk result (self.new ≡ happens (R.meaning self.old.rules) self.old (Event.Operator action.now)) }
        ensures err { OnErr result (self.new ≡ self.old) }
    {
        match action {
            Action::Append(system, next) => {
                self.write(alloc, self.may_operate(next), *system, next)
            }
            Action::Revoke => {
                self.revoke(alloc);
                Ok(())
            }
        }
    }

    /// All claims go. It takes no memory.
    pub fn revoke(&mut self, alloc: Global)
        ensures { self.new ≡ record self.old { claims = [] } }
    {
        self.claims = Items::new(alloc);
    }

    /// Whether an operator or the application may append a record of this kind. The model is replaced only where there is no
    /// claim.
    pub(crate) fn may_operate(&self, next: &Record) -> bool
        ensures { result ≡ may_operate self.now next.now }
    {
        is_operators(next) && (!is_model(next) || self.claims.is_empty())
    }

    /// A system that is up appends a record that may follow its log, where it is of the kind that is asked for.
    fn write(
        &mut self,
        alloc: Global,
        of_kind: bool,
        system: SystemNo,
        next: &Record,
    ) -> Result<(), OutOfMemory>
        requires { IsSafe R.meaning self.old }
        ensures ok { OnOk result (self.new ≡ written (record_asked (R.meaning self.old.rules) self.old of_kind system next.now) self.old) }
        ensures err { OnErr result (self.new ≡ self.old) }
    {
        if !self.may_write(alloc, of_kind, system, next)? {
            return Ok(());
        }
        let next = next.copied()?;
        self.append(system, next)
    }

    /// Whether a system is up, and a record of the kind that is asked for may follow its log.
    pub(crate) fn may_write(
        &self,
        alloc: Global,
        of_kind: bool,
        system: SystemNo,
        next: &Record,
    ) -> Result<bool, OutOfMemory>
        requires { IsSafe R.meaning self.now }
        ensures { IfOk result (λ may. may ≡ may_append (R.meaning self.now.rules) self.now of_kind system next.now) }
    {
        if !self.is_up(system) || !of_kind {
            return Ok(false);
        }
        may_follow(alloc, &self.rules, system, self.legal_log(system), next)
    }

    /// The work of a claim ends: its system appends a record, and the claim goes.
    pub(crate) fn close(&mut self, held: &Held, next: Record) -> Result<(), OutOfMemory>
        ensures ok { OnOk result (self.new ≡ with_record (without_claim self.old held.now.number) held.now.system next) }
        ensures err { OnErr result (self.new ≡ self.old) }
    {
        // The claim goes last: it is still there where memory runs out.
        self.append(held.system, next)?;
        self.release(held.number);
        Ok(())
    }
}

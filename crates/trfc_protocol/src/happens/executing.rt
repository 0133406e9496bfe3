//! A unit that was taken in is executed, or fails where its receiver does not offer its function; and a direct run ends.

use crate::{Event, Held, HeldKind, Rules, World};
use ale_base::{OutOfMemory, Tid};
use std::alloc::Global;
use unit_core::Record;

impl<R: Rules> World<R> {
    ghost use Rattle.std.specs.Prelude.{◌≡◌, OnOk, OnErr};
    ghost use Rattle.trfc_protocol.specs.RecordOf.{record_of_work};
    ghost use Rattle.trfc_protocol.specs.Happens.{happens, ends_with};
    ghost use Rattle.trfc_protocol.specs.Safe.{IsSafe};

    /// A unit that is offered inbound is claimed by its receiver.
    pub(crate) fn claim_inbound(&mut self, alloc: Global, tid: Tid) -> Result<(), OutOfMemory>
        requires { IsSafe R.meaning self.old }
        ensures ok { OnOk result (self.new ≡ happens (R.meaning self.old.rules) self.old (Event.Run tid)) }
        ensures err { OnErr result (self.new ≡ self.old) }
    {
        let Some(unit) = self.committed_unit(alloc, tid)? else {
            return Ok(());
        };
        if !self.is_offered_inbound(alloc, unit.receiver, tid)? {
            return Ok(());
        }
        self.claim(tid, unit.receiver, HeldKind::In)
    }

    /// The work of a claim ends, and its unit is executed where the claim's system offers its function.
    pub(crate) fn finish(&mut self, alloc: Global, number: u64) -> Result<(), OutOfMemory>
        requires { IsSafe R.meaning self.old }
        ensures ok { OnOk result (self.new ≡ happens (R.meaning self.old.rules) self.old (Event.Finish number)) }
        ensures err { OnErr result (self.new ≡ self.old) }
    {
        let Some(held) = self.claim_of(number).copied() else {
            return Ok(());
        };
        match held.kind {
            HeldKind::In => self.finish_inbound(alloc, &held),
            HeldKind::Direct => self.finish_direct(alloc, &held),
            HeldKind::Out => Ok(()),
        }
    }

    /// A unit that was taken in is executed.
    fn finish_inbound(&mut self, alloc: Global, held: &Held) -> Result<(), OutOfMemory>
        requires { IsSafe R.meaning self.old }
        ensures ok { OnOk result (self.new ≡ ends_with self.old held.now (record_of_work (R.meaning self.old.rules) self.old held.now HeldKind.In)) }
        ensures err { OnErr result (self.new ≡ self.old) }
    {
        if !self.offers_received(alloc, held.system, held.tid)? {
            return Ok(());
        }
        self.close(held, Record::Execute { tid: held.tid })
    }

    /// A direct run ends: the unit is taken in and executed in one record.
    fn finish_direct(&mut self, alloc: Global, held: &Held) -> Result<(), OutOfMemory>
        requires { IsSafe R.meaning self.old }
        ensures ok { OnOk result (self.new ≡ ends_with self.old held.now (record_of_work (R.meaning self.old.rules) self.old held.now HeldKind.Direct)) }
        ensures err { OnErr result (self.new ≡ self.old) }
    {
        let Some(unit) = self.committed_unit(alloc, held.tid)? else {
            return Ok(());
        };
        if !self.offers(alloc, held.system, &unit)? {
            return Ok(());
        }
        self.close(held, Record::Direct { unit })
    }

    /// The work of a claim ends, and its unit fails where the claim's system does not offer its function.
    pub(crate) fn fail(&mut self, alloc: Global, number: u64) -> Result<(), OutOfMemory>
        requires { IsSafe R.meaning self.old }
        ensures ok { OnOk result (self.new ≡ happens (R.meaning self.old.rules) self.old (Event.Fail number)) }
        ensures err { OnErr result (self.new ≡ self.old) }
    {
        let Some(held) = self.claim_of(number).copied() else {
            return Ok(());
        };
        if held.kind != HeldKind::In {
            return Ok(());
        }
        if self.offers_received(alloc, held.system, held.tid)? {
            return Ok(());
        }
        self.close(&held, Record::Fail { tid: held.tid })
    }
}

//! The tables of a system, and what changes them. Asking is in `tables/asking.rt`, what a record does in `noting.rt`.

ghost use Rattle.std.specs.Prelude.{◌≡◌, ◌++◌, length, take, OnOk};

mod asking;

use crate::Application;
use crate::noting::{note_incoming, note_outgoing, note_received, note_seen, note_unconfirmed};
use ale_base::{Items, OutOfMemory, Tid, Way};
use multi_queue::{Claim, NotOffered, Queues};
use std::alloc::Global;
use std::marker::Model;
use tid_table::Tids;
use unit_core::{AleUnit, Record};

/// What a system keeps of its log: the units that it committed, the ids that it received, those of them that it has not forgotten,
/// those that are done and not ended, its outbound and its inbound queues, and its application's tables. Contracts see each of them.
/// `new`, and what changes the tables, is here; all questions are in `tables/asking.rt`.
#[derive(Drop)]
pub struct SystemTables<A: Application> {
    units: Items<AleUnit>,
    received: Items<Tid>,
    seen: Tids,
    unconfirmed: Tids,
    outgoing: Queues,
    incoming: Queues,
    application: A,
}

impl<A: Application> Model for SystemTables<A> {
    ghost use Rattle.system_tables.specs.Tables.{TablesOf};

    ghost Value = { TablesOf A };

    ghost view = { λ tables. record {
      units = tables.units;
      received = tables.received;
      seen = tables.seen;
      unconfirmed = tables.unconfirmed;
      outgoing = tables.outgoing;
      incoming = tables.incoming;
      application = tables.application;
    } };
}

impl<A: Application> SystemTables<A> {
    ghost use Rattle.std.specs.Prelude.{◌≡◌, ◌↔◌, Some, true, false, IsOk, OnOk, OnErr, IsNone, IfSome, IfNone};
    ghost use Rattle.std.specs.Result.{result_err};
    ghost use Rattle.plain_queues.specs.Queues.{claim_of};
    ghost use Rattle.ale_base.specs.Tid.{TidOf};
    ghost use Rattle.plain_queues.specs.Offered.{is_offered, is_free, first_offered, why_not};
    ghost use Rattle.plain_queues.specs.Changes.{claimed, released};
    ghost use Rattle.system_tables.specs.Tables.{no_tables, entered, left, queues_of, with_queues};
    ghost use Rattle.system_tables.specs.Noted.{Noted};
    ghost use Rattle.system_tables.specs.CanNote.{CanNote};

    /// The tables of a log that has no records, beside those of an application. It takes no memory.
    pub fn new(alloc: Global, application: A) -> SystemTables<A>
        ensures { result ≡ no_tables application }
    {
        SystemTables {
            units: Items::new(alloc),
            received: Items::new(alloc),
            seen: Tids::new(alloc),
            unconfirmed: Tids::new(alloc),
            outgoing: Queues::new(alloc),
            incoming: Queues::new(alloc),
            application,
        }
    }

    /// Enters units behind those there, before the record that commits them is written. No other table learns of them. After an
    /// `Err` all is as before.
    pub fn enter(&mut self, more: &[AleUnit]) -> Result<(), OutOfMemory>
        ensures ok { OnOk result (self.new ≡ entered more.now self.old) }
        ensures err { OnErr result (self.new ≡ self.old) }
    {
        let before = self.units.len();
        match push_all(&mut self.units, more) {
            Ok(()) => Ok(()),
            Err(short) => {
                self.units.truncate(before);
                Err(short)
            }
        }
    }

    /// Enters units as `enter` does, and takes their list over, so that none is copied. After an `Err` all is as before.
    pub fn take_over(&mut self, more: Items<AleUnit>) -> Result<(), OutOfMemory>
        ensures ok { OnOk result (self.new ≡ entered more self.old) }
        ensures err { OnErr result (self.new ≡ self.old) }
    {
        self.units.append(more)
    }

    /// Takes units back, to the first of them, as many as this: their record was not written. All other tables stay.
    pub fn leave(&mut self, count: usize)
        ensures { self.new ≡ left count self.old }
    {
        self.units.truncate(count);
    }

    /// Notes one more record of the log: the units that it commits, which were entered before; the number of the claim that it ends,
    /// where it is a Done, a Mark, an Execute or a Fail; and what was made for the application. After an `Err` the units alone are
    /// those before.
    pub fn note(
        &mut self,
        alloc: Global,
        next: &Record,
        more: &[AleUnit],
        claim: Option<u64>,
        extra: A::Extra,
    ) -> Result<(), OutOfMemory>
        requires can { CanNote next.now more.now claim self.old }
        ensures noted { OnOk result (Noted A.stands (λ application log. A.goes_with application log next.now extra) next.now more.now self.old self.new) }
        ensures units { self.new.units ≡ self.old.units }
    {
        self.application.note(alloc, next, extra)?;
        note_received(&mut self.received, next)?;
        note_seen(&mut self.seen, next)?;
        note_unconfirmed(&mut self.unconfirmed, next)?;
        note_outgoing(alloc, &mut self.outgoing, next, more, claim)?;
        note_incoming(alloc, &mut self.incoming, next, claim)
    }

    /// Claims the unit of this id in a direction under a number. An `Err` says why it is not offered, and changes nothing.
    pub fn claim(&mut self, way: Way, tid: Tid, number: u64) -> Result<(), NotOffered>
        ensures ok { OnOk result (self.new ≡ with_queues way (claimed number tid (queues_of way self.old)) self.old) }
        ensures why_not { result_err result ≡ why_not tid (queues_of way self.old) }
        ensures offered { IsOk result ↔ (is_offered tid (queues_of way self.old) ≡ true) }
        ensures err { OnErr result (self.new ≡ self.old) }
    {
        let claimed = match way {
            Way::Outgoing => self.outgoing.claim(tid, number),
            Way::Incoming => self.incoming.claim(tid, number),
        };
        match claimed {
            Ok(_) => Ok(()),
            Err(why) => Err(why),
        }
    }

    /// Claims the unit of a direction that is offered and was added first, under a number. None exactly where no unit is offered there,
    /// and then nothing has changed. Who is next outgoing is told by `qout_scheduler`, and incoming by `qin_scheduler`.
    pub fn claim_next(&mut self, way: Way, number: u64) -> Option<Claim>
        ensures first { IfSome result (λ claim. first_offered (queues_of way self.old) ≡ Some claim.tid) }
        ensures number { IfSome result (λ claim. claim.number ≡ number) }
        ensures claimed { IfSome result (λ claim. self.new ≡ with_queues way (claimed number claim.tid (queues_of way self.old)) self.old) }
        ensures none { IsNone result ↔ ((tid : TidOf) → is_offered tid (queues_of way self.old) ≡ false) }
        ensures unchanged { IfNone result (self.new ≡ self.old) }
    {
        match way {
            Way::Outgoing => qout_scheduler::next(&mut self.outgoing, number),
            Way::Incoming => qin_scheduler::next(&mut self.incoming, number),
        }
    }

    /// Claims the unit of this id, which is free in a direction, under a number. All else stays.
    pub fn hold(&mut self, way: Way, tid: Tid, number: u64)
        requires free { is_free tid (queues_of way self.old) ≡ true }
        ensures { self.new ≡ with_queues way (claimed number tid (queues_of way self.old)) self.old }
    {
        match way {
            Way::Outgoing => self.outgoing.hold(tid, number),
            Way::Incoming => self.incoming.hold(tid, number),
        }
    }

    /// Gives up the claim of this number on the unit of this id in a direction. All else stays.
    pub fn release(&mut self, way: Way, tid: Tid, number: u64)
        requires held { claim_of tid (queues_of way self.old) ≡ Some number }
        ensures { self.new ≡ with_queues way (released tid (queues_of way self.old)) self.old }
    {
        let claim = Claim { number, tid };
        match way {
            Way::Outgoing => self.outgoing.release(claim),
            Way::Incoming => self.incoming.release(claim),
        }
    }
}

/// Adds copies of units at the end, in their order. After an `Err` some may have been added behind those there.
fn push_all(units: &mut Items<AleUnit>, more: &[AleUnit]) -> Result<(), OutOfMemory>
    ensures ok { OnOk result (units.new ≡ units.old ++ more.now) }
    ensures front { take (length units.old) units.new ≡ units.old }
{
    for unit in more {
        units.push(unit.clone()?)?;
    }
    Ok(())
}

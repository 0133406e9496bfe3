//! The reply to a shipment comes to the unit's sender.

ghost use Rattle.std.specs.Prelude.{◌≡◌, ◌&&◌};
ghost use Rattle.std.specs.List.{list_any};
ghost use Rattle.unit_landscape.specs.Appending.{record_of_receipt, record_of_refusal, takes, replied_of};

use super::UnitLandscape;
use crate::appending::{Appended, append};
use crate::{OutClaim, Replied, Reply, WorkEnd};
use ale_base::{Mark, OutOfMemory, Tid};
use ale_volumes::Volumes;
use system_tables::Application;
use trfc_protocol::{Held, HeldKind, Rules};
use unit_core::Record;

impl<R: Rules, A: Application, V: Volumes> UnitLandscape<R, A, V> {
    ghost use Rattle.std.specs.Prelude.{◌≡◌, ◌≢◌, Some, true, false, IfSome, IsNone};
    ghost use Rattle.trfc_protocol.specs.Legal.{is_commit};
    ghost use Rattle.trfc_protocol.specs.Worlds.{committed_unit};
    ghost use Rattle.system_tables.specs.Concerns.{concerns_application};
    ghost use Rattle.trfc_protocol.specs.Offered.{may_arrive};
    ghost use Rattle.trfc_protocol.specs.RecordOf.{record_of};
    ghost use Rattle.unit_landscape.specs.declared.answers.Reply.TheVariants.{SysFail, Busy};
    ghost use Rattle.unit_landscape.specs.Writes.{DiskAs, Appends};
    ghost use Rattle.unit_landscape.specs.Calls.{RepliedAs, reply_event, stands_out, was_received, is_refused, is_offered_function};
    ghost use Rattle.unit_landscape.specs.Appending.{HoldsOut};

    /// The reply to a shipment comes to its claim. The sender records that its unit is done, or marks it, and the claim is gone; on
    /// `Busy` it gives up the claim and records nothing. Whether the receiver of the unit offers its function is handed in, so that no
    /// log is read for it; it counts for `SysFail` alone.
    ///
    /// `Stale` comes exactly where the claim does not stand, and then nothing has changed. After `OutOfMemory` nothing has changed,
    /// but perhaps what lies behind the log on the volume, or the record stands in its log and the system is down behind it.
    pub fn reply(
        &mut self,
        claim: OutClaim,
        given: Reply,
        offered: bool,
    ) -> Result<Replied, WorkEnd>
        requires offered { given ≡ SysFail → stands_out self.old.world claim ≡ true
            → offered ≡ is_offered_function (R.meaning self.old.world.rules) self.old.world claim.tid }
        ensures ends { RepliedAs (R.meaning self.old.world.rules) V.disk self.old self.new claim given result }
        ensures disk { DiskAs V.disk self.old self.new
            (record_of (R.meaning self.old.world.rules) self.old.world (reply_event (R.meaning self.old.world.rules) self.old.world claim given)) }
    {
        let _ = self.kept.world();
        let Some(held) = self.held_out(&claim) else {
            return Err(WorkEnd::Stale);
        };
        if matches!(given, Reply::Busy) {
            self.kept.release(held.number);
            return Ok(Replied::Released);
        }
        let Held { number, system, .. } = held;
        let next = self.reply_record(&claim, held, &given, offered);
        replied(append(&mut self.kept, system, next, Some(number), A::nothing()))
    }

    /// The claim to ship a unit, where it stands.
    fn held_out(&self, claim: &OutClaim) -> Option<Held>
        ensures some { IfSome result (HoldsOut self.now.world claim.now) }
        ensures none { IsNone result → stands_out self.now.world claim.now ≡ false }
    {
        let held = *self.kept.world().claim_of(claim.number)?;
        if held.kind != HeldKind::Out || held.tid != claim.tid {
            return None;
        }
        Some(held)
    }

    /// The record by which a sender notes a reply, other than that the receiver is busy.
    fn reply_record(&self, claim: &OutClaim, held: Held, given: &Reply, offered: bool) -> Record
        requires holds { HoldsOut self.now.world claim.now held }
        requires other { given.now ≢ Busy }
        requires offered { given.now ≡ SysFail
            → offered ≡ is_offered_function (R.meaning self.now.world.rules) self.now.world held.tid }
        ensures appends { Appends (R.meaning self.now.world.rules) self.now.world held.system result (Some held.number)
            (reply_event (R.meaning self.now.world.rules) self.now.world claim.now given.now) }
        ensures plain { is_commit result ≡ false }
        ensures silent { concerns_application result ≡ false }
    {
        let _ = self.world();
        let tid = held.tid;
        match given {
            Reply::Done(receipt) => {
                let received = self.was_received(tid);
                record_of_receipt(tid, receipt.tid == tid, received)
            }
            Reply::SysFail => record_of_refusal(tid, self.is_refused(tid, offered)),
            Reply::Lost | Reply::Busy => record_of_refusal(tid, false),
        }
    }

    /// Whether the receiver of the unit of an id received it, whose id it has not forgotten.
    fn was_received(&self, tid: Tid) -> bool
        requires { IfSome (committed_unit (R.meaning self.now.world.rules) self.now.world tid)
            (λ unit. may_arrive (R.meaning self.now.world.rules) self.now.world unit ≡ true) }
        ensures { result ≡ was_received (R.meaning self.now.world.rules) self.now.world tid }
    {
        let Some(unit) = self.unit(tid) else {
            return false;
        };
        let receiver = unit.receiver;
        if self.kept.world().is_up(receiver) {
            self.kept.is_known(receiver, unit.tid)
        } else {
            is_received(self.kept.world().log(receiver), unit.tid)
        }
    }

    /// Whether the unit of an id has no inbound queue, and a function that its receiver does not offer, as is handed in.
    fn is_refused(&self, tid: Tid, offered: bool) -> bool
        requires { offered ≡ is_offered_function (R.meaning self.now.world.rules) self.now.world tid }
        ensures { result ≡ is_refused (R.meaning self.now.world.rules) self.now.world tid }
    {
        match self.unit(tid) {
            Some(unit) => unit.inq.is_empty() && !offered,
            None => false,
        }
    }
}

/// What a sender did with a reply, by how its record was appended.
fn replied(appended: Result<Appended, OutOfMemory>) -> Result<Replied, WorkEnd>
    ensures { result ≡ replied_of appended }
{
    match appended {
        Ok(Appended::Written) => Ok(Replied::Recorded),
        Ok(Appended::Fallen) => Ok(Replied::Down),
        Err(_) => Err(WorkEnd::OutOfMemory),
    }
}

/// The record of a receipt: the unit is done where the receipt counts, and else marked.
fn record_of_receipt(tid: Tid, is_its: bool, is_received: bool) -> Record
    ensures { result ≡ record_of_receipt tid (is_its && is_received) }
{
    if is_its && is_received {
        Record::Done { tid }
    } else {
        Record::Mark {
            tid,
            cause: Mark::Cpicerr,
        }
    }
}

/// The record of a shipment that failed: the unit is marked, by whether its receiver refused it.
fn record_of_refusal(tid: Tid, is_refused: bool) -> Record
    ensures { result ≡ record_of_refusal tid is_refused }
{
    let cause = if is_refused {
        Mark::Sysfail
    } else {
        Mark::Cpicerr
    };
    Record::Mark { tid, cause }
}

/// Whether a log received the unit of an id.
fn is_received(log: &[Record], tid: Tid) -> bool
    ensures { result ≡ list_any (takes tid) log.now }
{
    log.iter().any(|next| takes(next, tid))
}

/// Whether a record takes in the unit of an id.
fn takes(next: &Record, tid: Tid) -> bool
    ensures { result ≡ takes tid next.now }
{
    match next {
        Record::Accept { unit } | Record::Direct { unit } => unit.tid == tid,
        _ => false,
    }
}

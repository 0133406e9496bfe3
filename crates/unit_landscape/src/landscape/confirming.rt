//! A unit that is done is confirmed: its receiver forgets the transaction id, and its sender records that.

ghost use Rattle.std.specs.Prelude.{◌≡◌};
ghost use Rattle.unit_landscape.specs.Appending.{confirmed_of, closed_of};

use super::UnitLandscape;
use crate::appending::{Appended, append};
use crate::{Closed, Confirmed};
use ale_base::{OutOfMemory, SystemNo, Tid};
use ale_volumes::Volumes;
use system_tables::Application;
use trfc_protocol::Rules;
use unit_core::Record;

impl<R: Rules, A: Application, V: Volumes> UnitLandscape<R, A, V> {
    ghost use Rattle.std.specs.Prelude.{◌≡◌, Some, None, true, IfOk, OnErr};
    ghost use Rattle.std.specs.Option.{option_map};
    ghost use Rattle.unit_core.specs.declared.ale_unit.AleUnit.{AleUnit};
    ghost use Rattle.unit_core.specs.Filters.{done_in};
    ghost use Rattle.unit_core.specs.Queues.{is_listed};
    ghost use Rattle.trfc_protocol.specs.declared.event.Event.TheVariants as event;
    ghost use Rattle.trfc_protocol.specs.declared.event.ReplyTo.TheVariants.{Forgotten};
    ghost use Rattle.trfc_protocol.specs.Worlds.{log_of, committed_unit};
    ghost use Rattle.trfc_protocol.specs.RecordOf.{record_of};
    ghost use Rattle.unit_landscape.specs.Writes.{DiskAs};
    ghost use Rattle.unit_landscape.specs.Ends.{IsShort};
    ghost use Rattle.unit_landscape.specs.Calls.{ConfirmedAs, ClosedAs, is_forgotten};
    ghost use Rattle.unit_landscape.specs.Appending.{IsToForget, IsToEnd};

    /// The confirmation of a unit that is done comes to its receiver, which forgets the transaction id, unless it has. After an `Err`
    /// nothing has changed, or the record stands in its log and the receiver is down behind it.
    pub fn confirm(&mut self, tid: Tid) -> Result<Confirmed, OutOfMemory>
        requires done { is_listed tid (done_in (log_of self.old.world tid.system)) ≡ true }
        ensures event { IfOk result (ConfirmedAs (R.meaning self.old.world.rules) V.disk self.old self.new tid) }
        ensures short { OnErr result (IsShort (R.meaning self.old.world.rules) V.disk self.old self.new (event.Confirm tid)) }
        ensures disk { DiskAs V.disk self.old self.new
            (record_of (R.meaning self.old.world.rules) self.old.world (event.Confirm tid)) }
    {
        let _ = self.kept.world();
        let Some(receiver) = self.receiver_of(tid) else {
            // A unit that is done was committed, so it has a receiver.
            unreachable!()
        };
        if !self.kept.world().is_up(receiver) {
            return Ok(Confirmed::Down);
        }
        if !self.kept.is_known(receiver, tid) {
            return Ok(Confirmed::Already);
        }
        self.forget(tid, receiver)
    }

    /// The receiver of a unit forgets its id.
    fn forget(&mut self, tid: Tid, receiver: SystemNo) -> Result<Confirmed, OutOfMemory>
        requires { IsToForget (R.meaning self.old.world.rules) self.old.world tid receiver }
        ensures event { IfOk result (ConfirmedAs (R.meaning self.old.world.rules) V.disk self.old self.new tid) }
        ensures short { OnErr result (IsShort (R.meaning self.old.world.rules) V.disk self.old self.new (event.Confirm tid)) }
        ensures disk { DiskAs V.disk self.old self.new
            (record_of (R.meaning self.old.world.rules) self.old.world (event.Confirm tid)) }
    {
        confirmed(append(
            &mut self.kept,
            receiver,
            Record::Forget { tid },
            None,
            A::nothing(),
        ))
    }

    /// The receiver of the unit of an id. None exactly where its sender committed none.
    fn receiver_of(&self, tid: Tid) -> Option<SystemNo>
        ensures { result ≡ option_map (λ (unit : AleUnit). unit.receiver) (committed_unit (R.meaning self.now.world.rules) self.now.world tid) }
    {
        match self.unit(tid) {
            Some(unit) => Some(unit.receiver),
            None => None,
        }
    }

    /// The reply to the confirmation of a unit comes to its sender, which records that the transaction id is forgotten, unless it has.
    /// After an `Err` nothing has changed, but perhaps what lies behind the log on the volume, or the record stands in its log and the
    /// sender is down behind it.
    pub fn ended(&mut self, tid: Tid) -> Result<Closed, OutOfMemory>
        requires forgotten { is_forgotten (R.meaning self.old.world.rules) self.old.world tid ≡ true }
        ensures event { IfOk result (ClosedAs (R.meaning self.old.world.rules) V.disk self.old self.new tid) }
        ensures short { OnErr result (IsShort (R.meaning self.old.world.rules) V.disk self.old self.new (event.Reply (Forgotten tid))) }
        ensures disk { DiskAs V.disk self.old self.new
            (record_of (R.meaning self.old.world.rules) self.old.world (event.Reply (Forgotten tid))) }
    {
        let _ = self.kept.world();
        let sender = tid.system();
        if !self.kept.world().is_up(sender) {
            return Ok(Closed::Down);
        }
        if !self.kept.is_unconfirmed(sender, tid) {
            return Ok(Closed::Already);
        }
        self.end(tid, sender)
    }

    /// The sender of a unit records that its id is forgotten.
    fn end(&mut self, tid: Tid, sender: SystemNo) -> Result<Closed, OutOfMemory>
        requires { IsToEnd (R.meaning self.old.world.rules) self.old.world tid sender }
        ensures event { IfOk result (ClosedAs (R.meaning self.old.world.rules) V.disk self.old self.new tid) }
        ensures short { OnErr result (IsShort (R.meaning self.old.world.rules) V.disk self.old self.new (event.Reply (Forgotten tid))) }
        ensures disk { DiskAs V.disk self.old self.new
            (record_of (R.meaning self.old.world.rules) self.old.world (event.Reply (Forgotten tid))) }
    {
        closed(append(
            &mut self.kept,
            sender,
            Record::Ended { tid },
            None,
            A::nothing(),
        ))
    }
}

/// What a receiver did with a confirmation, by how its record was appended.
fn confirmed(appended: Result<Appended, OutOfMemory>) -> Result<Confirmed, OutOfMemory>
    ensures { result ≡ confirmed_of appended }
{
    match appended {
        Ok(Appended::Written) => Ok(Confirmed::Forgotten),
        Ok(Appended::Fallen) => Ok(Confirmed::Down),
        Err(short) => Err(short),
    }
}

/// What a sender did with the reply to a confirmation, by how its record was appended.
fn closed(appended: Result<Appended, OutOfMemory>) -> Result<Closed, OutOfMemory>
    ensures { result ≡ closed_of appended }
{
    match appended {
        Ok(Appended::Written) => Ok(Closed::Recorded),
        Ok(Appended::Fallen) => Ok(Closed::Down),
        Err(short) => Err(short),
    }
}

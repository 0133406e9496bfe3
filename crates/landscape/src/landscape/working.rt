//! The way of a unit: it is claimed and shipped, arrives, is executed and confirmed. What a receiver offers is told by its tables.

ghost use Rattle.std.specs.Prelude.{◌≡◌};

use super::Landscape;
use ale_base::{Fixed, OutOfMemory, SystemNo, Tid};
use ale_volumes::Volumes;
use unit_core::AleUnit;
use unit_landscape::{Arrival, Closed, Confirmed, InClaim, OutClaim, Replied, Reply, WorkEnd};

impl<V: Volumes> Landscape<V> {
    ghost use Rattle.std.specs.Prelude.{◌≡◌, Some, true, false, IfOk, OnErr};
    ghost use Rattle.unit_core.specs.Filters.{done_in};
    ghost use Rattle.unit_core.specs.Queues.{is_listed};
    ghost use Rattle.trfc_protocol.specs.declared.event.Event.TheVariants as event;
    ghost use Rattle.trfc_protocol.specs.declared.event.Action.TheVariants.{Revoke};
    ghost use Rattle.trfc_protocol.specs.declared.event.ReplyTo.TheVariants.{Forgotten};
    ghost use Rattle.trfc_protocol.specs.Offered.{may_arrive, answer_to};
    ghost use Rattle.trfc_protocol.specs.RecordOf.{record_of};
    ghost use Rattle.trfc_protocol.specs.Worlds.{committed_unit, is_up, log_of, offers_now};
    ghost use Rattle.unit_landscape.specs.LogAnswers.{KeepsDisk, KeepsVolumes};
    ghost use Rattle.unit_landscape.specs.declared.answers.Reply.TheVariants.{SysFail};
    ghost use Rattle.unit_landscape.specs.Calls.{Arrived, ClaimedIn, ClaimedOut, ClosedAs, ConfirmedAs, RepliedAs, is_forgotten, is_offered_function, reply_event};
    ghost use Rattle.unit_landscape.specs.Ends.{Happened, IsShort};
    ghost use Rattle.unit_landscape.specs.Writes.{DiskAs};
    ghost use Rattle.unit_landscape.specs.Appending.{Arrives};
    ghost use Rattle.document_state.specs.Meaning.{model_meaning};
    ghost use Rattle.landscape.specs.Crashes.{LeavesSoundLogs};

    /// Claims the first unit that is offered outbound at a system, to be shipped. None exactly where the system is down or nothing is
    /// offered there. After an `Err` nothing has changed.
    pub fn claim_out(&mut self, system: SystemNo) -> Result<Option<OutClaim>, OutOfMemory>
        ensures event { IfOk result (ClaimedOut (model_meaning self.old.world.rules.systems) V.disk self.old self.new system) }
        ensures err { OnErr result (self.new ≡ self.old) }
        ensures volumes { KeepsVolumes self.old self.new }
        ensures sound { LeavesSoundLogs V.disk self.old self.new }
    {
        let _ = self.units.world();
        self.units.claim_out(system)
    }

    /// Claims the first unit that is offered inbound at a system, to be executed. None exactly where the system is down or nothing is
    /// offered there. After an `Err` nothing has changed.
    pub fn claim_in(&mut self, system: SystemNo) -> Result<Option<InClaim>, OutOfMemory>
        ensures event { IfOk result (ClaimedIn (model_meaning self.old.world.rules.systems) V.disk self.old self.new system) }
        ensures err { OnErr result (self.new ≡ self.old) }
        ensures volumes { KeepsVolumes self.old self.new }
        ensures sound { LeavesSoundLogs V.disk self.old self.new }
    {
        let _ = self.units.world();
        self.units.claim_in(system)
    }

    /// Gives up all claims. It takes no memory.
    pub fn revoke(&mut self)
        ensures event { Happened (model_meaning self.old.world.rules.systems) V.disk self.old self.new (event.Operator Revoke) }
        ensures volumes { KeepsVolumes self.old self.new }
        ensures sound { LeavesSoundLogs V.disk self.old self.new }
    {
        let _ = self.units.world();
        self.units.revoke();
    }

    /// A system that is up falls, with nothing to be found at its opening. False where it is down, and then nothing has changed. It
    /// takes no memory.
    pub fn crash(&mut self, system: SystemNo) -> bool
        ensures up { result ≡ is_up self.old.world system }
        ensures event { result ≡ true → Happened (model_meaning self.old.world.rules.systems) V.disk self.old self.new (event.Fall system None) }
        ensures same { result ≡ false → self.new ≡ self.old }
        ensures volumes { KeepsDisk self.old self.new }
        ensures sound { LeavesSoundLogs V.disk self.old self.new }
    {
        let _ = self.units.world();
        self.units.crash(system)
    }

    /// A unit arrives at its receiver, which answers by its log, its model and the claims. The unit is one that its sender committed,
    /// and that its receiver has not forgotten; and it was received, or it heads its outbound queues.
    pub fn arrive(&mut self, unit: &AleUnit) -> Result<Arrival, OutOfMemory>
        requires committed { committed_unit (model_meaning self.old.world.rules.systems) self.old.world unit.now.tid ≡ Some unit.now }
        requires may { may_arrive (model_meaning self.old.world.rules.systems) self.old.world unit.now ≡ true }
        ensures event { IfOk result (Arrived (model_meaning self.old.world.rules.systems) V.disk self.old self.new unit.now) }
        ensures short { OnErr result (IsShort (model_meaning self.old.world.rules.systems) V.disk self.old self.new (event.Arrive unit.now.tid)) }
        ensures disk { DiskAs V.disk self.old self.new
            (record_of (model_meaning self.old.world.rules.systems) self.old.world (event.Arrive unit.now.tid)) }
        ensures sound { LeavesSoundLogs V.disk self.old self.new }
    {
        let _ = self.units.world();
        let offered = self.is_offered(unit.receiver, &unit.function);
        self.units.arrive(unit, offered)
    }

    /// Whether a system offers a function, by its model in force; false where it is down.
    pub(super) fn is_offered(&self, system: SystemNo, function: &Fixed<30>) -> bool
        ensures { is_up self.now.world system ≡ true → result ≡ offers_now (model_meaning self.now.world.rules.systems) self.now.world system function.now }
    {
        match self.tables(system) {
            None => false,
            Some(tables) => tables.offers(system, function),
        }
    }

    /// The reply to a shipment comes to its claim. The sender records that its unit is done, or marks it, and the claim is gone; on
    /// `Busy` it gives up the claim and records nothing. A refusal of a receiver that is down reads the log of that.
    ///
    /// `Stale` comes exactly where the claim does not stand, and then nothing has changed. After `OutOfMemory` nothing has changed,
    /// but perhaps what lies behind the log on the volume, or the record stands in its log and the system is down behind it.
    pub fn reply(&mut self, claim: OutClaim, given: Reply) -> Result<Replied, WorkEnd>
        ensures ends { RepliedAs (model_meaning self.old.world.rules.systems) V.disk self.old self.new claim given result }
        ensures disk { DiskAs V.disk self.old self.new
            (record_of (model_meaning self.old.world.rules.systems) self.old.world (reply_event (model_meaning self.old.world.rules.systems) self.old.world claim given)) }
        ensures sound { LeavesSoundLogs V.disk self.old self.new }
    {
        let _ = self.units.world();
        if !self.units.holds(&claim) {
            return Err(WorkEnd::Stale);
        }
        match self.offered_for(&claim, &given) {
            Ok(offered) => self.units.reply(claim, given, offered),
            Err(_) => Err(WorkEnd::OutOfMemory),
        }
    }

    /// Whether the receiver of a claim's unit offers its function, where a refusal comes; false where anything else does.
    fn offered_for(&self, claim: &OutClaim, given: &Reply) -> Result<bool, OutOfMemory>
        ensures { given.now ≡ SysFail → IfOk result (λ offered. offered ≡ is_offered_function (model_meaning self.now.world.rules.systems) self.now.world claim.now.tid) }
    {
        if !matches!(given, Reply::SysFail) {
            return Ok(false);
        }
        match self.unit(claim.tid()) {
            None => Ok(false),
            Some(unit) => self.offers_of(unit),
        }
    }

    /// Whether the receiver of a unit offers its function, whether it is up or down.
    fn offers_of(&self, unit: &AleUnit) -> Result<bool, OutOfMemory>
        ensures { IfOk result (λ offered. offered ≡ offers_now (model_meaning self.now.world.rules.systems) self.now.world unit.now.receiver unit.now.function) }
    {
        let world = self.units.world();
        if world.is_up(unit.receiver) {
            return Ok(self.is_offered(unit.receiver, &unit.function));
        }
        world.offers(self.alloc, unit.receiver, unit)
    }

    /// The confirmation of a unit that is done comes to its receiver, which forgets the transaction id, unless it has. After an `Err`
    /// nothing has changed, or the record stands in its log and the receiver is down behind it.
    pub fn confirm(&mut self, tid: Tid) -> Result<Confirmed, OutOfMemory>
        requires done { is_listed tid (done_in (log_of self.old.world tid.system)) ≡ true }
        ensures event { IfOk result (ConfirmedAs (model_meaning self.old.world.rules.systems) V.disk self.old self.new tid) }
        ensures short { OnErr result (IsShort (model_meaning self.old.world.rules.systems) V.disk self.old self.new (event.Confirm tid)) }
        ensures disk { DiskAs V.disk self.old self.new
            (record_of (model_meaning self.old.world.rules.systems) self.old.world (event.Confirm tid)) }
        ensures sound { LeavesSoundLogs V.disk self.old self.new }
    {
        let _ = self.units.world();
        self.units.confirm(tid)
    }

    /// The reply to the confirmation of a unit comes to its sender, which records that the transaction id is forgotten, unless it has.
    /// After an `Err` nothing has changed, but perhaps what lies behind the log on the volume, or the record stands in its log and the
    /// sender is down behind it.
    pub fn ended(&mut self, tid: Tid) -> Result<Closed, OutOfMemory>
        requires forgotten { is_forgotten (model_meaning self.old.world.rules.systems) self.old.world tid ≡ true }
        ensures event { IfOk result (ClosedAs (model_meaning self.old.world.rules.systems) V.disk self.old self.new tid) }
        ensures short { OnErr result (IsShort (model_meaning self.old.world.rules.systems) V.disk self.old self.new (event.Reply (Forgotten tid))) }
        ensures disk { DiskAs V.disk self.old self.new
            (record_of (model_meaning self.old.world.rules.systems) self.old.world (event.Reply (Forgotten tid))) }
        ensures sound { LeavesSoundLogs V.disk self.old self.new }
    {
        let _ = self.units.world();
        self.units.ended(tid)
    }
}

//! A unit arrives at its receiver.

ghost use Rattle.std.specs.Prelude.{◌≡◌, IfOk};
ghost use Rattle.unit_core.specs.declared.records.Record.TheVariants as log;

use super::UnitLandscape;
use crate::appending::{Appended, append};
use crate::{Arrival, InClaim, Receipt};
use ale_base::OutOfMemory;
use ale_volumes::Volumes;
use system_tables::Application;
use trfc_protocol::{Answer, HeldKind, Rules};
use unit_core::{AleUnit, Record};

impl<R: Rules, A: Application, V: Volumes> UnitLandscape<R, A, V> {
    ghost use Rattle.std.specs.Prelude.{◌≡◌, Some, true, IfOk, OnErr};
    ghost use Rattle.trfc_protocol.specs.declared.answer.Answer.TheVariants as answer;
    ghost use Rattle.trfc_protocol.specs.declared.event.Event.TheVariants as event;
    ghost use Rattle.trfc_protocol.specs.Worlds.{committed_unit, is_up, offers_now};
    ghost use Rattle.trfc_protocol.specs.Offered.{may_arrive, answer_to};
    ghost use Rattle.trfc_protocol.specs.RecordOf.{record_of};
    ghost use Rattle.unit_landscape.specs.LogAnswers.{KeepsVolumes};
    ghost use Rattle.unit_landscape.specs.Writes.{DiskAs};
    ghost use Rattle.unit_landscape.specs.Ends.{IsShort};
    ghost use Rattle.unit_landscape.specs.Calls.{Arrived};
    ghost use Rattle.unit_landscape.specs.Appending.{Arrives};

    /// A unit arrives at its receiver, which answers by its log and the claims. The unit is one that its sender committed, and that its
    /// receiver has not forgotten; and it was received, or it heads its outbound queues. Whether a receiver that is up offers the unit's
    /// function is handed in, so that no log is read for it.
    pub fn arrive(&mut self, unit: &AleUnit, offered: bool) -> Result<Arrival, OutOfMemory>
        requires offered { is_up self.old.world unit.now.receiver ≡ true
            → offered ≡ offers_now (R.meaning self.old.world.rules) self.old.world unit.now.receiver unit.now.function }
        requires committed { committed_unit (R.meaning self.old.world.rules) self.old.world unit.now.tid ≡ Some unit.now }
        requires may { may_arrive (R.meaning self.old.world.rules) self.old.world unit.now ≡ true }
        ensures event { IfOk result (Arrived (R.meaning self.old.world.rules) V.disk self.old self.new unit.now) }
        ensures short { OnErr result (IsShort (R.meaning self.old.world.rules) V.disk self.old self.new (event.Arrive unit.now.tid)) }
        ensures disk { DiskAs V.disk self.old self.new
            (record_of (R.meaning self.old.world.rules) self.old.world (event.Arrive unit.now.tid)) }
    {
        let _ = self.kept.world();
        match self.answer_to(unit, offered) {
            Answer::New => self.take_in(unit),
            Answer::Run => self.begin_run(unit),
            Answer::Known => Ok(Arrival::Known(Receipt { tid: unit.tid })),
            Answer::Busy => Ok(Arrival::Busy),
            Answer::SysFail => Ok(Arrival::SysFail),
            Answer::Down => Ok(Arrival::Down),
        }
    }

    /// How the receiver of a unit answers its arrival.
    pub(crate) fn answer_to(&self, unit: &AleUnit, offered: bool) -> Answer
        requires may { may_arrive (R.meaning self.now.world.rules) self.now.world unit.now ≡ true }
        requires offered { is_up self.now.world unit.now.receiver ≡ true
            → offered ≡ offers_now (R.meaning self.now.world.rules) self.now.world unit.now.receiver unit.now.function }
        ensures { result ≡ answer_to (R.meaning self.now.world.rules) self.now.world unit.now }
    {
        let world = self.kept.world();
        let receiver = unit.receiver;
        if !world.is_up(receiver) {
            return Answer::Down;
        }
        if self.kept.is_known(receiver, unit.tid) {
            return Answer::Known;
        }
        if world.is_claimed(HeldKind::Direct, unit.tid) {
            return Answer::Busy;
        }
        if !unit.inq.is_empty() {
            return Answer::New;
        }
        if offered {
            Answer::Run
        } else {
            Answer::SysFail
        }
    }

    /// The receiver takes a unit in, to be executed in the order of its queues.
    fn take_in(&mut self, unit: &AleUnit) -> Result<Arrival, OutOfMemory>
        requires { Arrives (R.meaning self.old.world.rules) self.old.world unit.now answer.New }
        ensures event { IfOk result (Arrived (R.meaning self.old.world.rules) V.disk self.old self.new unit.now) }
        ensures short { OnErr result (IsShort (R.meaning self.old.world.rules) V.disk self.old self.new (event.Arrive unit.now.tid)) }
        ensures disk { DiskAs V.disk self.old self.new
            (record_of (R.meaning self.old.world.rules) self.old.world (event.Arrive unit.now.tid)) }
    {
        let _ = self.kept.world();
        let next = accept_record(unit)?;
        match append(&mut self.kept, unit.receiver, next, None, A::nothing()) {
            Ok(Appended::Written) => Ok(Arrival::New(Receipt { tid: unit.tid })),
            Ok(Appended::Fallen) => Ok(Arrival::Down),
            Err(short) => Err(short),
        }
    }

    /// A run of a unit begins at its receiver.
    fn begin_run(&mut self, unit: &AleUnit) -> Result<Arrival, OutOfMemory>
        requires { Arrives (R.meaning self.old.world.rules) self.old.world unit.now answer.Run }
        ensures event { IfOk result (Arrived (R.meaning self.old.world.rules) V.disk self.old self.new unit.now) }
        ensures short { OnErr result (IsShort (R.meaning self.old.world.rules) V.disk self.old self.new (event.Arrive unit.now.tid)) }
        ensures volumes { KeepsVolumes self.old self.new }
    {
        let opening = self.kept.world().falls;
        match self.kept.claim_direct(unit.receiver, unit.tid) {
            Ok(number) => Ok(Arrival::Run(InClaim {
                number,
                tid: unit.tid,
                system: unit.receiver,
                opening,
            })),
            Err(short) => Err(short),
        }
    }
}

/// The record by which a unit is taken in.
fn accept_record(unit: &AleUnit) -> Result<Record, OutOfMemory>
    ensures { IfOk result (λ next. next ≡ log.Accept unit.now) }
{
    Ok(Record::Accept {
        unit: unit.clone()?,
    })
}

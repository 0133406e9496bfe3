//! An earlier request of a unit comes to its receiver now, and nothing is told to its sender.

ghost use Rattle.std.specs.Prelude.{◌≡◌};
ghost use Rattle.unit_landscape.specs.Kept.{IsLandscape};
ghost use Rattle.unit_landscape.specs.KeptWorlds.{KeptOf};
ghost use Rattle.unit_landscape.specs.LogAnswers.{KeepsVolumes};
ghost use Rattle.unit_landscape.specs.Late.{is_marked_lost, is_undone, late_of, IsGivenBack, GivesBack};

use super::UnitLandscape;
use crate::appending::record;
use crate::{AppendEnd, KeptWorld, Late, LateEnd};
use ale_base::{Mark, Tid, Way};
use ale_volumes::Volumes;
use plain_queues::NotOffered;
use system_tables::Application;
use trfc_protocol::{Answer, Rules};
use unit_core::{AleUnit, Record};

impl<R: Rules, A: Application, V: Volumes> UnitLandscape<R, A, V> {
    ghost use Rattle.std.specs.Prelude.{◌≡◌, ◌-◌, Some, true, false, is_some, slice_get};
    ghost use Rattle.unit_core.specs.declared.ale_unit.AleUnit.{AleUnit};
    ghost use Rattle.unit_core.specs.declared.records.Record.TheVariants as log;
    ghost use Rattle.trfc_protocol.specs.declared.answer.Answer.TheVariants as answer;
    ghost use Rattle.trfc_protocol.specs.declared.held.HeldKind.TheVariants.{Direct};
    ghost use Rattle.trfc_protocol.specs.Worlds.{log_of, is_up, committed_unit, offers_now, is_claimed};
    ghost use Rattle.trfc_protocol.specs.Offered.{answer_to};
    ghost use Rattle.system_tables.specs.Tables.{TablesOf};
    ghost use Rattle.unit_landscape.specs.Crashes.{LeavesSound};
    ghost use Rattle.unit_landscape.specs.Writes.{DiskAs};
    ghost use Rattle.unit_landscape.specs.Late.{LateAs, late_record, is_lost, IsLateUnit, ComesLate};

    /// An earlier request of a unit comes to its receiver now: the unit arrives, and one that is to run at once is run. Nothing is told
    /// to its sender. Whether a receiver that is up offers the unit's function is handed in, so that no log is read for it. What was made
    /// for the application goes with the record of a run.
    ///
    /// Every refusal leaves all as it was. After `OutOfMemory` nothing has changed, but perhaps what lies behind the log on the volume,
    /// or the record stands in its log and the receiver is down behind it.
    pub fn late(&mut self, tid: Tid, offered: bool, extra: A::Extra) -> Result<Late, LateEnd>
        requires offered { (unit : AleUnit) → committed_unit (R.meaning self.old.world.rules) self.old.world tid ≡ Some unit
            → is_up self.old.world unit.receiver ≡ true
            → offered ≡ offers_now (R.meaning self.old.world.rules) self.old.world unit.receiver unit.function }
        requires alone { is_claimed Direct tid self.old.world.claims ≡ false }
        requires goes { (unit : AleUnit) → committed_unit (R.meaning self.old.world.rules) self.old.world tid ≡ Some unit
            → answer_to (R.meaning self.old.world.rules) self.old.world unit ≡ answer.Run
            → (its : TablesOf A) → slice_get self.old.tables (unit.receiver - 1) ≡ Some its → A.goes_with its.application (log_of self.old.world unit.receiver) (log.Direct unit) extra }
        ensures ends { LateAs (R.meaning self.old.world.rules) V.disk self.old self.new tid result }
        ensures disk { DiskAs V.disk self.old self.new
            (late_record (R.meaning self.old.world.rules) self.old.world tid) }
        ensures sound { V.disk.told → LeavesSound R.meaning V.disk self.old self.new }
    {
        let _ = self.kept.world();
        let unit = match self.late_unit(tid) {
            Ok(unit) => unit,
            Err(why) => return Err(why),
        };
        match self.answer_to(&unit, offered) {
            Answer::New => self.take_late(unit),
            Answer::Run => self.run_late(unit, extra),
            Answer::Known => Ok(Late::Known),
            Answer::SysFail => Ok(Late::SysFail),
            Answer::Down => Ok(Late::Down),
            // No direct run of the unit is claimed.
            Answer::Busy => unreachable!(),
        }
    }

    /// The unit of an id of which a late request may come, or the first reason why none may.
    fn late_unit(&self, tid: Tid) -> Result<AleUnit, LateEnd>
        ensures { IsLateUnit (R.meaning self.now.world.rules) self.now.world tid result }
    {
        let sender = tid.system();
        let world = self.kept.world();
        if !world.is_known(sender) {
            return Err(LateEnd::NoSuchSystem);
        }
        if !world.is_up(sender) {
            return Err(LateEnd::SenderDown);
        }
        let Some(unit) = self.unit(tid) else {
            return Err(LateEnd::NotCommitted);
        };
        if !self.is_lost(tid) {
            return Err(LateEnd::NotMarked);
        }
        match unit.clone() {
            Ok(unit) => Ok(unit),
            Err(_) => Err(LateEnd::OutOfMemory),
        }
    }

    /// Whether the sender of a unit that is up has marked it CPICERR since its last Retry, and it is not done.
    fn is_lost(&self, tid: Tid) -> bool
        requires up { is_up self.now.world tid.system ≡ true }
        requires committed { is_some (committed_unit (R.meaning self.now.world.rules) self.now.world tid) ≡ true }
        ensures { result ≡ is_lost self.now.world tid }
    {
        is_marked_lost(self.kept.tables(tid.system()).why_not(Way::Outgoing, tid))
    }

    /// A unit that comes late is taken in.
    fn take_late(&mut self, unit: AleUnit) -> Result<Late, LateEnd>
        requires { ComesLate (R.meaning self.old.world.rules) self.old.world unit answer.New }
        ensures ends { LateAs (R.meaning self.old.world.rules) V.disk self.old self.new unit.tid result }
        ensures disk { DiskAs V.disk self.old self.new
            (late_record (R.meaning self.old.world.rules) self.old.world unit.tid) }
        ensures sound { V.disk.told → LeavesSound R.meaning V.disk self.old self.new }
    {
        let receiver = unit.receiver;
        let next = Record::Accept { unit };
        came_late(record(&mut self.kept, receiver, next, &[], None, A::nothing()))
    }

    /// A unit that comes late is run. Its claim is made for its record, and taken back where that is not appended.
    fn run_late(&mut self, unit: AleUnit, extra: A::Extra) -> Result<Late, LateEnd>
        requires comes { ComesLate (R.meaning self.old.world.rules) self.old.world unit answer.Run }
        requires goes { (its : TablesOf A) → slice_get self.old.tables (unit.receiver - 1) ≡ Some its → A.goes_with its.application (log_of self.old.world unit.receiver) (log.Direct unit) extra }
        ensures ends { LateAs (R.meaning self.old.world.rules) V.disk self.old self.new unit.tid result }
        ensures disk { DiskAs V.disk self.old self.new
            (late_record (R.meaning self.old.world.rules) self.old.world unit.tid) }
        ensures sound { V.disk.told → LeavesSound R.meaning V.disk self.old self.new }
    {
        let _ = self.kept.world();
        let (tid, receiver) = (unit.tid, unit.receiver);
        let number = match self.kept.claim_direct(receiver, tid) {
            Ok(number) => number,
            Err(_) => return Err(LateEnd::OutOfMemory),
        };
        let next = Record::Direct { unit };
        let appended = record(&mut self.kept, receiver, next, &[], Some(number), extra);
        give_back(&mut self.kept, &appended);
        came_late(appended)
    }
}

/// Takes the claim of a run back whose record was not appended, where no system fell.
fn give_back<R: Rules, A: Application, V: Volumes>(
    kept: &mut KeptWorld<R, A, V>,
    appended: &Result<(), AppendEnd>,
)
    requires landscape { IsLandscape R.meaning kept.old.world }
    requires known { (before : KeptOf R A V) × IsGivenBack R.meaning A.stands before kept.old appended.now }
    ensures landscape { IsLandscape R.meaning kept.new.world }
    ensures volumes { KeepsVolumes kept.old kept.new }
    ensures gives { (before : KeptOf R A V) → IsGivenBack R.meaning A.stands before kept.old appended.now → GivesBack before kept.old kept.new appended.now }
{
    if is_undone(appended) {
        kept.give_back();
    }
}

/// Whether a record was not appended, though no system fell.
fn is_undone(appended: &Result<(), AppendEnd>) -> bool
    ensures { result ≡ is_undone appended.now }
{
    matches!(appended, Err(AppendEnd::Full(_) | AppendEnd::Before))
}

/// What came of a late request, by how its record was appended.
fn came_late(appended: Result<(), AppendEnd>) -> Result<Late, LateEnd>
    ensures { result ≡ late_of appended }
{
    match appended {
        Ok(()) => Ok(Late::New),
        Err(AppendEnd::Volume) => Ok(Late::Down),
        Err(AppendEnd::Full(length)) => Err(LateEnd::Full(length)),
        Err(AppendEnd::Before | AppendEnd::After) => Err(LateEnd::OutOfMemory),
    }
}

/// Whether the reason why a unit is not offered is that it is marked CPICERR.
fn is_marked_lost(why: Option<NotOffered>) -> bool
    ensures { result ≡ is_marked_lost why }
{
    matches!(why, Some(NotOffered::Failed(Mark::Cpicerr)))
}

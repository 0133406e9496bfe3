//! Records that are asked for: of an operator, of the application, and those that commit documents.

ghost use Rattle.std.specs.Prelude.{◌≡◌};
ghost use Rattle.trfc_protocol.specs.Legal.{is_destination};
ghost use Rattle.unit_landscape.specs.Appending.{operated_of};

use super::UnitLandscape;
use crate::appending::record;
use crate::{AppendEnd, OperatorEnd};
use ale_base::{QueueName, SystemNo, Tid, Way};
use ale_volumes::Volumes;
use system_tables::Application;
use trfc_protocol::Rules;
use unit_core::{AleUnit, Record};

impl<R: Rules, A: Application, V: Volumes> UnitLandscape<R, A, V> {
    ghost use Rattle.std.specs.Prelude.{◌≡◌, ◌-◌, ◌++◌, ◌∷◌, [], Some, true, false, List, slice_get};
    ghost use Rattle.unit_core.specs.declared.records.Record.{Record};
    ghost use Rattle.unit_core.specs.declared.records.Record.TheVariants as log;
    ghost use Rattle.unit_codec.specs.Condition.{IsWritable};
    ghost use Rattle.trfc_protocol.specs.declared.event.Event.TheVariants as event;
    ghost use Rattle.trfc_protocol.specs.declared.event.Action.TheVariants.{Append};
    ghost use Rattle.trfc_protocol.specs.Legal.{is_operators, is_destination, may_follow, may_follow_others};
    ghost use Rattle.trfc_protocol.specs.Worlds.{log_of, is_up};
    ghost use Rattle.system_tables.specs.Concerns.{concerns_application};
    ghost use Rattle.trfc_protocol.specs.RecordOf.{record_of};
    ghost use Rattle.system_tables.specs.Tables.{TablesOf};
    ghost use Rattle.unit_landscape.specs.Writes.{DiskAs};
    ghost use Rattle.unit_landscape.specs.Ends.{AppendsAs};
    ghost use Rattle.unit_landscape.specs.Calls.{OperatedAs};
    ghost use Rattle.unit_landscape.specs.Appending.{at};

    /// A system commits documents: a Commit or a Dispatch that may follow its log is appended, with the units that it commits and what
    /// was made of it for the application. After `Full` nothing has changed.
    pub fn commit(
        &mut self,
        system: SystemNo,
        next: Record,
        more: &[AleUnit],
        extra: A::Extra,
    ) -> Result<(), AppendEnd>
        requires possible { record_of (R.meaning self.old.world.rules) self.old.world (event.Commit system next) ≡ Some (at system next) }
        requires writable { IsWritable next }
        requires commits { (R.meaning self.old.world.rules).committed system (log_of self.old.world system ++ next ∷ [])
            ≡ (R.meaning self.old.world.rules).committed system (log_of self.old.world system) ++ more.now }
        requires goes { (its : TablesOf A) → slice_get self.old.tables (system - 1) ≡ Some its → A.goes_with its.application (log_of self.old.world system) next extra }
        ensures ends { AppendsAs (R.meaning self.old.world.rules) V.disk self.old self.new (event.Commit system next) (at system next) result }
        ensures disk { DiskAs V.disk self.old self.new
            (record_of (R.meaning self.old.world.rules) self.old.world (event.Commit system next)) }
    {
        record(&mut self.kept, system, next, more, None, extra)
    }

    /// An operator or the application appends a record that may follow the log of a system, with what was made of it for the
    /// application. After `Full` nothing has changed.
    pub fn operate(
        &mut self,
        system: SystemNo,
        next: Record,
        extra: A::Extra,
    ) -> Result<(), AppendEnd>
        requires possible { record_of (R.meaning self.old.world.rules) self.old.world (event.Operator (Append system next)) ≡ Some (at system next) }
        requires writable { IsWritable next }
        requires goes { (its : TablesOf A) → slice_get self.old.tables (system - 1) ≡ Some its → A.goes_with its.application (log_of self.old.world system) next extra }
        ensures ends { AppendsAs (R.meaning self.old.world.rules) V.disk self.old self.new (event.Operator (Append system next)) (at system next) result }
        ensures disk { DiskAs V.disk self.old self.new
            (record_of (R.meaning self.old.world.rules) self.old.world (event.Operator (Append system next))) }
    {
        record(&mut self.kept, system, next, &[], None, extra)
    }

    /// Stops a queue of a system: of the units of this name that go to a destination, or with destination 0 of those that came in.
    /// `NotAllowed` comes exactly where there is no such destination, or it is the system itself.
    pub fn stop(
        &mut self,
        system: SystemNo,
        way: Way,
        destination: u8,
        name: QueueName,
    ) -> Result<(), OperatorEnd>
        ensures ends { OperatedAs (R.meaning self.old.world.rules) V.disk self.old self.new system (log.Stop way destination name) result }
        ensures disk { DiskAs V.disk self.old self.new
            (record_of (R.meaning self.old.world.rules) self.old.world (event.Operator (Append system (log.Stop way destination name)))) }
    {
        self.on_queue(
            system,
            way,
            destination,
            Record::Stop {
                way,
                destination,
                name,
            },
        )
    }

    /// Starts a queue of a system, as `stop` stops it.
    pub fn start(
        &mut self,
        system: SystemNo,
        way: Way,
        destination: u8,
        name: QueueName,
    ) -> Result<(), OperatorEnd>
        ensures ends { OperatedAs (R.meaning self.old.world.rules) V.disk self.old self.new system (log.Start way destination name) result }
        ensures disk { DiskAs V.disk self.old self.new
            (record_of (R.meaning self.old.world.rules) self.old.world (event.Operator (Append system (log.Start way destination name)))) }
    {
        self.on_queue(
            system,
            way,
            destination,
            Record::Start {
                way,
                destination,
                name,
            },
        )
    }

    /// Removes the mark of a unit in a direction at a system. `NotAllowed` comes exactly where the unit is not outstanding there.
    pub fn retry(&mut self, system: SystemNo, way: Way, tid: Tid) -> Result<(), OperatorEnd>
        ensures ends { OperatedAs (R.meaning self.old.world.rules) V.disk self.old self.new system (log.Retry way tid) result }
        ensures disk { DiskAs V.disk self.old self.new
            (record_of (R.meaning self.old.world.rules) self.old.world (event.Operator (Append system (log.Retry way tid)))) }
    {
        if !self.kept.world().is_up(system) {
            return Err(OperatorEnd::Down);
        }
        if !self.kept.is_outstanding(system, way, tid) {
            return Err(OperatorEnd::NotAllowed);
        }
        self.asked(system, Record::Retry { way, tid })
    }

    /// Appends a Stop or a Start, where there is such a queue.
    fn on_queue(
        &mut self,
        system: SystemNo,
        way: Way,
        destination: u8,
        next: Record,
    ) -> Result<(), OperatorEnd>
        requires kind { is_operators next ≡ true }
        requires silent { concerns_application next ≡ false }
        requires queue { (before : List Record) → may_follow_others (R.meaning self.old.world.rules) system before next
            ≡ is_destination (R.meaning self.old.world.rules).systems system way destination }
        ensures ends { OperatedAs (R.meaning self.old.world.rules) V.disk self.old self.new system next result }
        ensures disk { DiskAs V.disk self.old self.new
            (record_of (R.meaning self.old.world.rules) self.old.world (event.Operator (Append system next))) }
    {
        let world = self.kept.world();
        if !world.is_up(system) {
            return Err(OperatorEnd::Down);
        }
        if !is_destination(world.rules.systems(), system, way, destination) {
            return Err(OperatorEnd::NotAllowed);
        }
        self.asked(system, next)
    }

    /// Appends an operator's record that may follow the log of a system that is up.
    fn asked(&mut self, system: SystemNo, next: Record) -> Result<(), OperatorEnd>
        requires up { is_up self.old.world system ≡ true }
        requires may { may_follow (R.meaning self.old.world.rules) system (log_of self.old.world system) next ≡ true }
        requires kind { is_operators next ≡ true }
        requires silent { concerns_application next ≡ false }
        ensures ends { OperatedAs (R.meaning self.old.world.rules) V.disk self.old self.new system next result }
        ensures disk { DiskAs V.disk self.old self.new
            (record_of (R.meaning self.old.world.rules) self.old.world (event.Operator (Append system next))) }
    {
        operated(record(&mut self.kept, system, next, &[], None, A::nothing()))
    }
}

/// How an operator's record was appended.
fn operated(appended: Result<(), AppendEnd>) -> Result<(), OperatorEnd>
    ensures { result ≡ operated_of appended }
{
    match appended {
        Ok(()) => Ok(()),
        Err(AppendEnd::Full(length)) => Err(OperatorEnd::Full(length)),
        Err(AppendEnd::Volume) => Err(OperatorEnd::Volume),
        Err(AppendEnd::Before | AppendEnd::After) => Err(OperatorEnd::OutOfMemory),
    }
}

/// Whether a queue leads somewhere: an outbound one to another system, and an inbound one has destination 0.
fn is_destination(systems: u8, system: SystemNo, way: Way, destination: u8) -> bool
    ensures { result ≡ is_destination systems system way destination }
{
    match way {
        Way::Outgoing => destination >= 1 && destination <= systems && destination != system.get(),
        Way::Incoming => destination == 0,
    }
}

//! What an operator asks for: queues are stopped and started, and units are tried again.

ghost use Rattle.std.specs.Prelude.{◌≡◌};

use super::Landscape;
use crate::commands::{queue_to, refused, way_at};
use ale_base::{QueueName, SystemNo, Tid};
use ale_volumes::Volumes;
use status_log::Refusal;

impl<V: Volumes> Landscape<V> {
    ghost use Rattle.std.specs.Prelude.{⊤};
    ghost use Rattle.landscape.specs.Crashes.{LeavesSoundLogs};
    ghost use Rattle.landscape.specs.Carried.{CarriedAs, DiskAsked, asked_at, operator_event};
    ghost use Rattle.landscape.specs.Operator.{asked_queue, asked_retry, start_of, stop_of};

    /// Stops a queue of a system: of this name, of the units that go to a destination, or without one of those that came in. It stays
    /// stopped until it is started; one that is stopped may be stopped again.
    ///
    /// `N2` comes exactly where the system is down; `N5` else where the name is no queue name, or the destination is the system itself
    /// or none of the landscape; `N10` else where the journal is full.
    pub fn stop(
        &mut self,
        system: SystemNo,
        destination: Option<SystemNo>,
        name: &[u8],
    ) -> Result<(), Refusal>
        ensures ends { CarriedAs V.disk self.old self.new system (operator_event system)
            (asked_at self.old.world system (λ log. asked_queue self.old.world.rules.systems system destination name.now (stop_of destination name.now))) (λ done. ⊤) result }
        ensures disk { DiskAsked V.disk self.old self.new system
            (asked_at self.old.world system (λ log. asked_queue self.old.world.rules.systems system destination name.now (stop_of destination name.now))) }
        ensures sound { LeavesSoundLogs V.disk self.old self.new }
    {
        let _ = self.units.world();
        if !self.units.is_up(system) {
            return Err(Refusal::N2);
        }
        let name = match QueueName::of(name) {
            Ok(name) => name,
            Err(_) => return Err(Refusal::N5),
        };
        let (way, number) = queue_to(destination);
        refused(self.units.stop(system, way, number, name), Refusal::N5)
    }

    /// Starts a queue of a system, as `stop` stops it.
    pub fn start(
        &mut self,
        system: SystemNo,
        destination: Option<SystemNo>,
        name: &[u8],
    ) -> Result<(), Refusal>
        ensures ends { CarriedAs V.disk self.old self.new system (operator_event system)
            (asked_at self.old.world system (λ log. asked_queue self.old.world.rules.systems system destination name.now (start_of destination name.now))) (λ done. ⊤) result }
        ensures disk { DiskAsked V.disk self.old self.new system
            (asked_at self.old.world system (λ log. asked_queue self.old.world.rules.systems system destination name.now (start_of destination name.now))) }
        ensures sound { LeavesSoundLogs V.disk self.old self.new }
    {
        let _ = self.units.world();
        if !self.units.is_up(system) {
            return Err(Refusal::N2);
        }
        let name = match QueueName::of(name) {
            Ok(name) => name,
            Err(_) => return Err(Refusal::N5),
        };
        let (way, number) = queue_to(destination);
        refused(self.units.start(system, way, number, name), Refusal::N5)
    }

    /// Removes the mark of a unit at a system: of one that it sent where the id is its own, and else of one that it received. One that
    /// is not marked may be tried again too.
    ///
    /// `N2` comes exactly where the system is down; `N6` else where the unit is not outstanding there; `N10` else where the journal is
    /// full.
    pub fn retry(&mut self, system: SystemNo, tid: Tid) -> Result<(), Refusal>
        ensures ends { CarriedAs V.disk self.old self.new system (operator_event system)
            (asked_at self.old.world system (asked_retry self.old.world.rules.systems system tid)) (λ done. ⊤) result }
        ensures disk { DiskAsked V.disk self.old self.new system
            (asked_at self.old.world system (asked_retry self.old.world.rules.systems system tid)) }
        ensures sound { LeavesSoundLogs V.disk self.old self.new }
    {
        let _ = self.units.world();
        refused(
            self.units.retry(system, way_at(system, tid), tid),
            Refusal::N6,
        )
    }
}

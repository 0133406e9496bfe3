//! A system that is down is opened again, in all that is kept of it.

use super::KeptWorld;
use crate::Cause;
use crate::cause::tell_look;
use ale_base::{OutOfMemory, SystemNo};
use ale_volumes::Volumes;
use system_tables::{Application, SystemTables};
use trfc_protocol::Rules;
use unit_journal::{LookFault, Looked};

impl<R: Rules, A: Application, V: Volumes> KeptWorld<R, A, V> {
    ghost use Rattle.std.specs.Prelude.{◌≡◌, ◌-◌, slice_set, IfOk, OnOk, OnErr};
    ghost use Rattle.unit_journal.specs.Looking.{system_of, is_found, with_looked};
    ghost use Rattle.trfc_protocol.specs.Happens.{run};
    ghost use Rattle.unit_landscape.specs.Causes.{with_cause};
    ghost use Rattle.unit_landscape.specs.declared.cause.Cause.TheVariants.{Up};
    ghost use Rattle.unit_landscape.specs.Reopening.{IsDown, IsFound, KeepsAll, Looks, AreTablesLooked, NoneAt, opening_events};

    /// Looks at the volume of a system that is down, as `UnitLandscape::look` does.
    pub(crate) fn look(&mut self, system: SystemNo) -> Result<Looked, LookFault>
        requires down { IsDown self.old.world system }
        ensures of { IfOk result (λ looked. system_of looked ≡ system) }
        ensures found { IfOk result (IsFound V.disk self.new) }
        ensures keeps { KeepsAll V.disk self.old self.new system result }
        ensures looks { Looks V.disk self.old self.new system result }
    {
        let looked = self.journals.look(
            &mut self.vols,
            system,
            self.both.world.log(system),
            self.both.world.rest(system),
        );
        tell_look(&mut self.causes, system, &looked);
        looked
    }

    /// Enters what a look found, with the tables of the log that it found: the system is up. After an `Err` nothing has changed.
    pub(crate) fn reopen(
        &mut self,
        looked: Looked,
        tables: SystemTables<A>,
    ) -> Result<(), OutOfMemory>
        requires found { IsFound V.disk self.old looked }
        requires tables { AreTablesLooked A.stands (R.meaning self.old.world.rules) self.old.world looked tables }
        requires free { NoneAt (system_of looked) self.old.world.claims }
        ensures world { OnOk result (self.new.world ≡ run R.meaning self.old.world (opening_events (is_found looked) (system_of looked))) }
        ensures tables { OnOk result (self.new.tables ≡ slice_set self.old.tables (system_of looked - 1) tables) }
        ensures journals { OnOk result (self.new.journals ≡ with_looked looked self.old.journals) }
        ensures causes { OnOk result (self.new.causes ≡ with_cause self.old.causes (system_of looked) Up) }
        ensures vols { self.new.vols ≡ self.old.vols }
        ensures err { OnErr result (self.new ≡ self.old) }
    {
        let system = looked.system();
        // What may want memory comes first.
        self.both.reopen(system, looked.is_found(), tables)?;
        self.counted.count(system, self.both.world.log(system));
        self.journals.settle(looked);
        self.causes[system.get() as usize - 1] = Cause::Up;
        Ok(())
    }
}

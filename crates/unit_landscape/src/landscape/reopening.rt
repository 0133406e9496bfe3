//! A system that is down is opened again: a look at its volume, and what it found entered. Nothing here appends a record.

use super::UnitLandscape;
use ale_base::{OutOfMemory, SystemNo};
use ale_volumes::Volumes;
use system_tables::{Application, SystemTables};
use trfc_protocol::Rules;
use unit_journal::{LookFault, Looked};

impl<R: Rules, A: Application, V: Volumes> UnitLandscape<R, A, V> {
    ghost use Rattle.std.specs.Prelude.{◌≡◌, IfOk, OnOk, OnErr};
    ghost use Rattle.unit_journal.specs.Looking.{system_of};
    ghost use Rattle.unit_landscape.specs.Crashes.{LeavesSound};
    ghost use Rattle.unit_landscape.specs.Reopening.{IsDown, IsFound, KeepsAll, Looks, AreTablesLooked, HasReopened};

    /// Looks at the volume of a system that is down: whether it stands for the log that is kept of the system, or for that log and the
    /// record that the system was writing as it fell. `reopen` enters what was found.
    ///
    /// `Changed` comes where it stands for neither: then it was changed by others. After `Volume` the system is down by that. Nothing
    /// else that is kept changes, and after each error the same call may succeed later.
    pub fn look(&mut self, system: SystemNo) -> Result<Looked, LookFault>
        requires down { IsDown self.old.world system }
        ensures of { IfOk result (λ looked. system_of looked ≡ system) }
        ensures found { IfOk result (IsFound V.disk self.new) }
        ensures keeps { KeepsAll V.disk self.old self.new system result }
        ensures looks { Looks V.disk self.old self.new system result }
        ensures sound { V.disk.told → LeavesSound R.meaning V.disk self.old self.new }
    {
        let _ = self.kept.world();
        self.kept.look(system)
    }

    /// Enters what a look found: the system is up, with its log, and with the record that it was writing where that was found, else that
    /// record is lost. The tables are those of that log. No volume is called.
    ///
    /// After an `Err` nothing has changed.
    pub fn reopen(&mut self, looked: Looked, tables: SystemTables<A>) -> Result<(), OutOfMemory>
        requires found { IsFound V.disk self.old looked }
        requires tables { AreTablesLooked A.stands (R.meaning self.old.world.rules) self.old.world looked tables }
        ensures reopened { OnOk result (HasReopened R.meaning self.old self.new looked tables) }
        ensures vols { self.new.vols ≡ self.old.vols }
        ensures err { OnErr result (self.new ≡ self.old) }
    {
        let _ = self.kept.world();
        self.kept.reopen(looked, tables)
    }
}

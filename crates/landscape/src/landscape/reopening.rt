//! A system that is down is opened again, over the volume that it fell with.

ghost use Rattle.std.specs.Prelude.{◌≡◌, IfOk};
ghost use Rattle.std.specs.Option.{option_copied};
ghost use Rattle.document_state.specs.Meaning.{model_meaning};
ghost use Rattle.document_state.specs.Tables.{AreTablesOf};
ghost use Rattle.unit_landscape.specs.Reopening.{AreTablesLooked, IsFound, rest_found};

use super::Landscape;
use crate::ReopenEnd;
use ale_base::{OutOfMemory, SystemNo};
use ale_volumes::Volumes;
use document_state::{DocumentTables, ModelRules, read_log};
use log_tables::take;
use said_models::Readings;
use std::alloc::Global;
use system_tables::SystemTables;
use trfc_protocol::World;
use unit_core::Record;
use unit_journal::Looked;
use unit_landscape::UnitLandscape;

/// The units of a landscape that works by models.
type Units<V> = UnitLandscape<ModelRules, DocumentTables, V>;

impl<V: Volumes> Landscape<V> {
    ghost use Rattle.std.specs.Prelude.{◌≡◌, ◌≢◌, ◌≤◌, ◌-◌, ℕ, OnOk, OnErr, Err, IsErrOf};
    ghost use Rattle.ale_volumes.specs.Faults.{CountsFault};
    ghost use Rattle.document_state.specs.Meaning.{model_meaning};
    ghost use Rattle.landscape.specs.Crashes.{LeavesSoundLogs};
    ghost use Rattle.landscape.specs.Reopened.{HasReopenedWith, IsOpening, OpensAs};
    ghost use Rattle.unit_landscape.specs.Reopening.{IsDown, IsFound};

    /// Opens a system of the landscape that is down. Its volume is looked at: it stands for the log that is kept of the system, or for that log
    /// and the record that the system was writing as it fell. Then the system is up with that log, and its tables are made of it. A record that
    /// was not found is lost. No record is appended.
    ///
    /// `Refused` comes exactly where the system is up, and then nothing has changed. `Volume` comes only where a call on its volume failed, as
    /// the count of its faults tells. `Changed` comes exactly where the volume stands for another log, and never where volumes tell what they
    /// hold. After each of these the system stays down, and nothing has changed but what is told of why it is down: after `Volume` that its
    /// volume failed.
    pub fn open_system(&mut self, system: SystemNo) -> Result<(), ReopenEnd>
        requires known { system ≤ self.old.world.rules.systems }
        ensures ends { OpensAs V.disk self.old self.new system result }
        ensures unchanged { V.disk.told → (number : ℕ) → result ≢ Err (ReopenEnd.Changed number) }
        ensures faults { CountsFault (IsErrOf result ReopenEnd.Volume) (V.disk.faults self.old.vols) (V.disk.faults self.new.vols) (system - 1) }
        ensures sound { LeavesSoundLogs V.disk self.old self.new }
    {
        let _number = system.get();
        let _ = self.units.world();
        if self.units.is_up(system) {
            return Err(ReopenEnd::Refused);
        }
        self.open_down(system)
    }

    /// Opens a system that is down.
    fn open_down(&mut self, system: SystemNo) -> Result<(), ReopenEnd>
        requires down { IsDown self.old.world system }
        ensures opens { IsOpening V.disk self.old self.new system result }
        ensures sound { LeavesSoundLogs V.disk self.old self.new }
    {
        let looked = self.units.look(system)?;
        self.enter(looked)?;
        Ok(())
    }

    /// Enters what a look found, with the tables of the log that it found.
    fn enter(&mut self, looked: Looked) -> Result<(), OutOfMemory>
        requires found { IsFound V.disk self.old looked }
        ensures reopened { OnOk result (HasReopenedWith self.old self.new looked) }
        ensures vols { self.new.vols ≡ self.old.vols }
        ensures err { OnErr result (self.new ≡ self.old) }
    {
        let _ = self.units.world();
        let tables = tables_of(self.alloc, &self.units, &looked)?;
        self.units.reopen(looked, tables)
    }
}

/// The record that a system was writing as it fell, where a look found it.
fn found_in<'w>(world: &'w World<ModelRules>, looked: &Looked) -> Option<&'w Record>
    ensures { option_copied result ≡ rest_found world.now looked.now }
{
    if looked.is_found() {
        world.rest(looked.system())
    } else {
        None
    }
}

/// The tables of the log that a look found.
fn tables_of<V: Volumes>(
    alloc: Global,
    units: &Units<V>,
    looked: &Looked,
) -> Result<SystemTables<DocumentTables>, OutOfMemory>
    requires { IsFound V.disk units.now looked.now }
    ensures { IfOk result (AreTablesLooked (λ tables log. AreTablesOf log tables) (model_meaning units.now.world.rules.systems) units.now.world looked.now) }
{
    let world = units.world();
    let system = looked.system();
    let log = world.log(system);
    let mut known = Readings::new(alloc);
    let (mut its, _) = read_log(alloc, &world.rules, &mut known, system, log)?;
    let Some(next) = found_in(world, looked) else {
        return Ok(its.into_tables());
    };
    take(alloc, &world.rules, &mut known, system, &mut its, log, next)?;
    Ok(its.into_tables())
}

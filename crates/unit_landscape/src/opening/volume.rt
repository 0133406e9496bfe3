//! A volume that was opened, whatever log it holds: what is judged of it, and the system that is up with its log.

use super::next::add;
use super::{NotOpened, OpenFault, Opening};
use crate::WorldTables;
use ale_base::{Items, SystemNo};
use ale_volumes::Volumes;
use std::alloc::Global;
use std::marker::Model;
use system_tables::{Application, SystemTables};
use trfc_protocol::Rules;
use unit_core::Record;
use unit_journal::SystemJournals;

/// The volume of the next system, which is opened, with the log that it holds, behind the systems that are opened so far. Whether the log
/// may be that of a system is to be judged, and then the system is up, or the volume refused.
#[derive(Drop)]
pub struct OpenedVolume<R: Rules, A: Application, V: Volumes> {
    pub(crate) alloc: Global,
    pub(crate) both: WorldTables<R, A>,
    pub(crate) journals: SystemJournals,
    pub(crate) vols: V,
    pub(crate) log: Items<Record>,
}

impl<R: Rules, A: Application, V: Volumes> Model for OpenedVolume<R, A, V> {
    ghost use Rattle.unit_landscape.specs.KeptWorlds.{kept_of};
    ghost use Rattle.unit_landscape.specs.Volumes.{VolumeOf, IsVolume};

    ghost Value = { VolumeOf R A V };

    ghost view = { λ volume. record {
      kept = kept_of volume.both volume.journals volume.vols;
      log = volume.log;
    } };

    ghost invariant = { λ volume. IsVolume R.meaning A.stands V.disk (record {
      kept = kept_of volume.both volume.journals volume.vols;
      log = volume.log;
    }) };
}

impl<R: Rules, A: Application, V: Volumes> OpenedVolume<R, A, V> {
    ghost use Rattle.std.specs.Prelude.{◌≡◌, suc, length, IfOk, IfErr};
    ghost use Rattle.unit_journal.specs.Log.{AreEntries};
    ghost use Rattle.unit_journal.specs.OnDisk.{AreInOrder};
    ghost use Rattle.trfc_protocol.specs.Legal.{IsLegal};
    ghost use Rattle.system_tables.specs.OfLog.{AreTablesOf};
    ghost use Rattle.log_tables.specs.OfLog.{no_claims};
    ghost use Rattle.unit_landscape.specs.Opening.{vols_of};
    ghost use Rattle.unit_landscape.specs.Volumes.{place_in, moments_in, entries_in, IsUp};

    /// The rules of the landscape.
    pub fn rules(&self) -> &R
        ensures { result.now ≡ (self.now).kept.world.rules }
    {
        &self.both.world.rules
    }

    /// The system whose volume it is.
    pub fn system(&self) -> SystemNo
        ensures { result ≡ suc (place_in self.now) }
    {
        system_at(self.both.world.systems.len())
    }

    /// The records of the log, oldest first. Each can be written with its moment.
    pub fn log(&self) -> &[Record]
        ensures log { result.now ≡ (self.now).log }
        ensures entries { AreEntries (entries_in self.now) }
    {
        let _journals = &self.journals;
        self.log.as_slice()
    }

    /// The moments of the records, one for each.
    pub fn moments(&self) -> &[Option<u64>]
        ensures moments { result.now ≡ moments_in self.now }
        ensures each { length (moments_in self.now) ≡ length (self.now).log }
    {
        self.journals
            .moments(system_at(self.both.world.systems.len()))
    }

    /// The system is up with this log, which is legal and whose moments are in order, and with its tables.
    ///
    /// An `Err` gives the volumes back, and comes only where a request for memory was refused.
    pub fn up(self, tables: SystemTables<A>) -> Result<Opening<R, A, V>, NotOpened<V>>
        requires legal { IsLegal (R.meaning self.kept.world.rules) (suc (place_in self)) self.log }
        requires order { AreInOrder (moments_in self) }
        requires tables { AreTablesOf A.stands ((R.meaning self.kept.world.rules).committed (suc (place_in self)) self.log) self.log no_claims no_claims tables }

        // The system is up behind all that were opened, which are as before.
        ensures up { IfOk result (IsUp tables self) }
        ensures memory { IfErr result (λ failed. failed.why ≡ OpenFault.OutOfMemory) }
        ensures vols { vols_of result ≡ self.kept.vols }
    {
        let OpenedVolume {
            alloc,
            mut both,
            journals,
            vols,
            log,
        } = self;
        match add(&mut both, log, tables) {
            Ok(()) => Ok(Opening {
                alloc,
                both,
                journals,
                vols,
            }),
            Err(_) => Err(NotOpened {
                why: OpenFault::OutOfMemory,
                vols,
            }),
        }
    }

    /// The volumes: the log is no system's, and the landscape is not opened.
    pub fn refuse(self) -> V
        ensures { result ≡ self.kept.vols }
    {
        let OpenedVolume { vols, .. } = self;
        vols
    }
}

ghost use Rattle.std.specs.Prelude.{◌≡◌, ◌<◌, suc};

/// The system at a place from 0.
fn system_at(place: usize) -> SystemNo
    requires { place < 16 }
    ensures { result ≡ suc place }
{
    match SystemNo::of(place as u8 + 1) {
        Some(system) => system,
        // There are 16 systems at most.
        None => unreachable!(),
    }
}

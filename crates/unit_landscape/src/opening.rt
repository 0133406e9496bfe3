//! Volumes that are opened for a landscape, one system after the other.

mod breach;
mod fault;
mod next;
mod volume;

use crate::{KeptWorld, WorldTables};
use ale_base::Items;
use ale_volumes::Volumes;
pub use fault::{NotOpened, OpenFault};
use next::open_log;
use std::alloc::Global;
use std::marker::Model;
use system_tables::Application;
use trfc_protocol::{Rules, World};
use unit_journal::SystemJournals;
pub use volume::OpenedVolume;

/// The systems of a landscape whose volumes are opened so far: each is up, with a legal log, which may be empty.
#[derive(Drop)]
pub struct Opening<R: Rules, A: Application, V: Volumes> {
    alloc: Global,
    both: WorldTables<R, A>,
    journals: SystemJournals,
    vols: V,
}

impl<R: Rules, A: Application, V: Volumes> Model for Opening<R, A, V> {
    ghost use Rattle.unit_landscape.specs.KeptWorlds.{KeptOf};
    ghost use Rattle.unit_landscape.specs.Causes.{no_causes};
    ghost use Rattle.unit_landscape.specs.Opening.{IsOpening};

    ghost Value = { KeptOf R A V };

    ghost view = { λ opening. record {
      world = opening.both.world;
      tables = opening.both.tables;
      journals = opening.journals;
      vols = opening.vols;
      causes = no_causes;
    } };

    ghost invariant = { λ opening. IsOpening R.meaning A.stands V.disk (record {
      world = opening.both.world;
      tables = opening.both.tables;
      journals = opening.journals;
      vols = opening.vols;
      causes = no_causes;
    }) };
}

impl<R: Rules, A: Application, V: Volumes> Opening<R, A, V> {
    ghost use Rattle.std.specs.Prelude.{◌≡◌, ◌<◌, ℕ, [], length, IfOk};
    ghost use Rattle.ale_volumes.specs.Clock.{LeavesOnly, KeepsOthers};
    ghost use Rattle.ale_volumes.specs.Faults.{CountsFault};
    ghost use Rattle.byte_journal.specs.Settled.{IsLeftByOpening, LeavesOnlyFromSync};
    ghost use Rattle.trfc_protocol.specs.Legal.{IsLegal};
    ghost use Rattle.trfc_protocol.specs.Start.{first_world};
    ghost use Rattle.trfc_protocol.specs.Worlds.{log_of};
    ghost use Rattle.unit_journal.specs.OnDisk.{count_of, moment_of};
    ghost use Rattle.unit_landscape.specs.Causes.{no_causes};
    ghost use Rattle.unit_landscape.specs.Opening.{logs_of, LeavesAs, HasFailed};
    ghost use Rattle.unit_landscape.specs.Volumes.{IsFound, FoundAs, LeftFoundAs, vols_found};

    /// No system is opened yet. The records of the landscape are written with this moment, until another one is set.
    pub fn new(alloc: Global, rules: R, moment: Option<u64>, vols: V) -> Opening<R, A, V>
        ensures world { result.world ≡ first_world rules [] }
        ensures tables { result.tables ≡ [] }
        ensures count { count_of result.journals ≡ 0 }
        ensures moment { moment_of result.journals ≡ moment }
        ensures vols { result.vols ≡ vols }
    {
        let world = World {
            rules,
            systems: Items::new(alloc),
            claims: Items::new(alloc),
            falls: 0,
            next_number: 1,
        };
        let both = WorldTables {
            world,
            tables: Items::new(alloc),
        };
        let mut journals = SystemJournals::new(alloc);
        journals.set_moment(moment);
        Opening {
            alloc,
            both,
            journals,
            vols,
        }
    }

    /// How many systems are opened.
    pub fn count(&self) -> usize
        ensures { result ≡ length self.now.world.systems }
    {
        self.both.world.systems.len()
    }

    /// Opens the volume of the next system, whatever log it holds.
    ///
    /// An `Err` gives the volumes back: the one that was opened is damaged or unread, exactly as it says, or a call on it failed, or
    /// memory was refused.
    pub fn open_volume(self) -> Result<OpenedVolume<R, A, V>, NotOpened<V>>
        requires next { length self.world.systems < (R.meaning self.world.rules).systems }

        // The log that the volume stands for, behind the systems that were opened, which are as before.
        ensures found { IfOk result (IsFound self) }
        ensures why { V.disk.told → FoundAs (V.disk.volume self.vols (length self.world.systems)).contents result }

        // What a read gives is as before, but for a gate that is the last byte.
        ensures leaves { V.disk.told → LeavesAs (V.disk.volume self.vols (length self.world.systems))
            (V.disk.volume (vols_found result) (length self.world.systems)) result }

        // A crash at any moment of the call leaves what was handed in, or what reads as it; from some moment on what stands for the
        // log, or after an `Err` what reads as what was handed in.
        ensures any_moment { V.disk.told → LeavesOnly V.disk self.vols (vols_found result) (length self.world.systems)
            (IsLeftByOpening (V.disk.volume self.vols (length self.world.systems))) }
        ensures from_sync { V.disk.told → LeavesOnlyFromSync V.disk self.vols (vols_found result) (length self.world.systems)
            (HasFailed result) (LeftFoundAs (V.disk.volume self.vols (length self.world.systems)).contents result) }
        ensures others { V.disk.told → KeepsOthers V.disk self.vols (vols_found result) (length self.world.systems) }
        ensures faults { CountsFault (HasFailed result) (V.disk.faults self.vols) (V.disk.faults (vols_found result)) (length self.world.systems) }
    {
        let Opening {
            alloc,
            both,
            mut journals,
            mut vols,
        } = self;
        match open_log(&mut journals, &mut vols) {
            Ok(log) => Ok(OpenedVolume {
                alloc,
                both,
                journals,
                vols,
                log,
            }),
            Err(why) => Err(NotOpened { why, vols }),
        }
    }

    /// The world of the systems that are opened, which is kept. None of them has fallen, and the log of each is legal; it may be empty.
    pub fn into_kept(self) -> KeptWorld<R, A, V>
        ensures kept { result ≡ self }
        ensures world { self.world ≡ first_world self.world.rules (logs_of self.world) }
        ensures legal { (system : ℕ) → IsLegal (R.meaning self.world.rules) system (log_of self.world system) }
        ensures causes { self.causes ≡ no_causes }
    {
        let Opening {
            alloc,
            both,
            journals,
            vols,
        } = self;
        KeptWorld::new(alloc, both, journals, vols)
    }

    /// The volumes.
    pub fn into_volumes(self) -> V
        ensures { result ≡ self.vols }
    {
        let Opening { vols, .. } = self;
        vols
    }
}

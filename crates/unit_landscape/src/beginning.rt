//! The first record of each system, and the landscape of systems that have begun.

ghost use Rattle.std.specs.Prelude.{◌≡◌, ◌-◌, []};
ghost use Rattle.ale_volumes.specs.Clock.{LeavesOnly, KeepsOthers};
ghost use Rattle.ale_volumes.specs.Faults.{CountsFault};
ghost use Rattle.unit_core.specs.declared.records.Record.TheVariants.{Genesis};
ghost use Rattle.unit_codec.specs.Entries.{entry_with};
ghost use Rattle.unit_journal.specs.Settled.{IsBeforeOrAfter};
ghost use Rattle.unit_journal.specs.OnDisk.{moment_of};
ghost use Rattle.trfc_protocol.specs.Safe.{IsSafe};
ghost use Rattle.unit_landscape.specs.Kept.{CommitWritable};
ghost use Rattle.unit_landscape.specs.Beginning.{IsToBegin, BegunAs};

use crate::{AppendEnd, KeptWorld, UnitLandscape};
use ale_base::{Items, SystemNo};
use ale_volumes::Volumes;
use std::alloc::Global;
use system_tables::Application;
use thiserror::Error;
use trfc_protocol::Rules;
use unit_core::Record;

/// The most bytes of the text of a Genesis.
pub const MOST_TEXT: usize = 1_048_576;

/// Why a Genesis was not appended, or its system is down although it was.
#[derive(Clone, Copy, Debug, PartialEq, Eq, Error)]
pub enum BeginEnd {
    /// A call on the volume failed. The system is down; at its opening the Genesis may be found.
    #[error("volume fault")]
    Volume,
    /// A request for memory was refused: nothing has changed, but perhaps what lies behind the log on the volume, or the Genesis was
    /// appended and the system is down.
    #[error("out of memory")]
    OutOfMemory,
}

/// Appends the Genesis of a system that is up with an empty log, with what was made of it for the application. A volume is large
/// enough for it.
pub fn begin<R: Rules, A: Application, V: Volumes>(
    kept: &mut KeptWorld<R, A, V>,
    system: SystemNo,
    text: Items<u8>,
    extra: A::Extra,
) -> Result<(), BeginEnd>
    requires { IsToBegin A.stands A.goes_with kept.old system text extra }

    // The log is the Genesis alone, with the moment that was set; or how else it ended.
    ensures begun { BegunAs kept.old kept.new system text result }

    // A crash at any moment of the call leaves of the system's volume the empty log, or the Genesis alone; of others what it left.
    ensures any_moment { V.disk.told → LeavesOnly V.disk kept.old.vols kept.new.vols (system - 1)
        (IsBeforeOrAfter [] (entry_with (moment_of kept.old.journals) (Genesis system text))) }
    ensures others { V.disk.told → KeepsOthers V.disk kept.old.vols kept.new.vols (system - 1) }
    ensures faults { CountsFault (result ≡ Err BeginEnd.Volume) (V.disk.faults kept.old.vols) (V.disk.faults kept.new.vols) (system - 1) }
{
    let _ = kept.world();
    let genesis = Record::Genesis {
        system: system.get(),
        text,
    };
    match kept.append(system, genesis, &[], None, extra) {
        Ok(()) => Ok(()),
        Err(AppendEnd::Volume) => Err(BeginEnd::Volume),
        // A volume is large enough for a Genesis.
        Err(AppendEnd::Full(_)) => unreachable!(),
        Err(AppendEnd::Before) => Err(BeginEnd::OutOfMemory),
        Err(AppendEnd::After) => Err(BeginEnd::OutOfMemory),
    }
}

/// The landscape of systems that have all begun, whatever their logs are: together they are safe.
pub fn reopened<R: Rules, A: Application, V: Volumes>(
    alloc: Global,
    kept: KeptWorld<R, A, V>,
) -> UnitLandscape<R, A, V>
    requires safe { IsSafe R.meaning kept.world }
    requires writable { CommitWritable (R.meaning kept.world.rules) }
    ensures { result ≡ kept }
{
    UnitLandscape::new(alloc, kept)
}

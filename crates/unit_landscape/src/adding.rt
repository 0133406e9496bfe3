//! A record is written, and then noted.

ghost use Rattle.std.specs.Prelude.{◌≡◌, ◌-◌, IsErrOf};
ghost use Rattle.ale_volumes.specs.Clock.{LeavesOnly, KeepsOthers};
ghost use Rattle.ale_volumes.specs.Faults.{CountsFault};
ghost use Rattle.unit_codec.specs.Entries.{entry_with};
ghost use Rattle.unit_journal.specs.Settled.{IsBeforeOrAfter};
ghost use Rattle.unit_journal.specs.OnDisk.{next_moment, entries_at};
ghost use Rattle.trfc_protocol.specs.Worlds.{log_of};
ghost use Rattle.unit_landscape.specs.KeptWorlds.{IsStored, kept_of};
ghost use Rattle.unit_landscape.specs.AppendEnds.{AppendedAs, FullAs, JournalsAs, UnchangedAs, IsToAppend};

use crate::noting::note;
use crate::writing::write;
use crate::{AppendEnd, WorldTables};
use ale_base::SystemNo;
use ale_volumes::Volumes;
use std::alloc::Global;
use system_tables::Application;
use trfc_protocol::Rules;
use unit_core::{AleUnit, Record};
use unit_journal::SystemJournals;

/// Adds a record to the log of a system that is up, with the units that it commits: to its volume, and to the tables of its system, with
/// the number of the claim that it ends and what was made for the application. How it ends is as with `KeptWorld::append`.
pub(crate) fn add<R: Rules, A: Application, V: Volumes>(
    alloc: Global,
    both: &mut WorldTables<R, A>,
    journals: &mut SystemJournals,
    vols: &mut V,
    system: SystemNo,
    next: Record,
    more: &[AleUnit],
    claim: Option<u64>,
    extra: A::Extra,
) -> Result<(), AppendEnd>
    requires stored { IsStored R.meaning A.stands V.disk (kept_of both.old journals.old vols.old) }
    requires can { IsToAppend R.meaning A.goes_with (kept_of both.old journals.old vols.old) system next more.now claim extra }
    ensures stored { IsStored R.meaning A.stands V.disk (kept_of both.new journals.new vols.new) }
    ensures did { AppendedAs both.old.world both.new.world system next claim result }
    ensures journals { JournalsAs (system - 1) journals.old journals.new result }
    ensures unchanged { UnchangedAs (kept_of both.old journals.old vols.old) (kept_of both.new journals.new vols.new) result }
    ensures full { FullAs (system - 1) journals.old (log_of both.old.world system) next result }
    ensures any_moment { V.disk.told → LeavesOnly V.disk vols.old vols.new (system - 1)
        (IsBeforeOrAfter (entries_at journals.old (system - 1) (log_of both.old.world system)) (entry_with (next_moment journals.old (system - 1)) next)) }
    ensures others { V.disk.told → KeepsOthers V.disk vols.old vols.new (system - 1) }
    ensures faults { CountsFault (IsErrOf result AppendEnd.Volume) (V.disk.faults vols.old) (V.disk.faults vols.new) (system - 1) }
{
    match write(alloc, both, journals, vols, system, next, more) {
        Ok(()) => note(alloc, both, system, more, claim, extra),
        Err(end) => Err(end),
    }
}

//! A record that was written is noted, or its system falls behind it.

ghost use Rattle.std.specs.Prelude.{◌≡◌, OnOk, OnErr, None, Err};
ghost use Rattle.trfc_protocol.specs.Worlds.{with_fall};
ghost use Rattle.unit_landscape.specs.InStep.{AreInStepWith};
ghost use Rattle.unit_landscape.specs.Joining.{without_named};
ghost use Rattle.unit_landscape.specs.declared.append_end.AppendEnd.TheVariants.{After};
ghost use Rattle.unit_landscape.specs.AppendEnds.{IsBehind};

use crate::{AppendEnd, WorldTables};
use ale_base::SystemNo;
use std::alloc::Global;
use system_tables::Application;
use trfc_protocol::Rules;
use unit_core::AleUnit;

/// The last record of a system's log, which was written, is noted in its tables, and the claim goes that it ends. After an `Err` the
/// system is down behind it, and all claims are gone.
pub(crate) fn note<R: Rules, A: Application>(
    alloc: Global,
    both: &mut WorldTables<R, A>,
    system: SystemNo,
    more: &[AleUnit],
    claim: Option<u64>,
    extra: A::Extra,
) -> Result<(), AppendEnd>
    requires { IsBehind R.meaning A.stands A.goes_with both.old system more.now claim extra }
    ensures world { OnOk result (both.new.world ≡ without_named both.old.world claim) }
    ensures fallen { OnErr result (both.new.world ≡ with_fall both.old.world system None) }
    ensures after { OnErr result (result ≡ Err After) }
    ensures in_step { AreInStepWith A.stands R.meaning both.new.world both.new.tables }
{
    match both.note(alloc, system, more, claim, extra) {
        Ok(()) => Ok(()),
        Err(_) => {
            both.fall(alloc, system, None);
            Err(AppendEnd::After)
        }
    }
}

//! Why a system is down.

ghost use Rattle.std.specs.Prelude.{◌≡◌};
ghost use Rattle.unit_landscape.specs.Causes.{told_by};
ghost use Rattle.unit_landscape.specs.Reopening.{told_by_look};

use crate::AppendEnd;
use ale_base::SystemNo;
use unit_journal::{LookFault, Looked};

/// Why a system is down, if it is.
#[derive(Clone, Copy)]
pub enum Cause {
    /// It is up.
    Up,
    /// It fell though nothing of it failed.
    Crashed,
    /// A call on its volume failed.
    Faulted,
    /// A record did not fit on its volume: with it that would have had this many bytes, over 67,108,864.
    Overran(u64),
    /// Memory ran out behind a record that was written.
    Short,
}

/// Tells why a system is down, where an append to its log ended so that it is.
pub(crate) fn tell(causes: &mut [Cause; 16], system: SystemNo, ended: &Result<(), AppendEnd>)
    ensures { causes.new ≡ told_by causes.old system ended.now }
{
    let at = system.get() as usize - 1;
    match ended {
        Err(AppendEnd::Volume) => causes[at] = Cause::Faulted,
        Err(AppendEnd::After) => causes[at] = Cause::Short,
        _ => {}
    }
}

/// Tells why a system is down whose volume was looked at, where that failed.
pub(crate) fn tell_look(
    causes: &mut [Cause; 16],
    system: SystemNo,
    looked: &Result<Looked, LookFault>,
)
    ensures { causes.new ≡ told_by_look causes.old system looked.now }
{
    if let Err(LookFault::Volume) = looked {
        causes[system.get() as usize - 1] = Cause::Faulted;
    }
}

//! Why a command is not answered.

ghost use Rattle.std.specs.Prelude.{◌≡◌};
ghost use Rattle.runs.specs.declared.halt.Halt.TheVariants.{OutOfMemory as NoMemory};

use ale_base::{OutOfMemory, SystemNo};

/// Why a command is not answered, which ends the run.
#[derive(Clone, Copy, PartialEq, Eq)]
pub enum Halt {
    /// The volume of a system that was to be opened holds another log than the one that was kept: 0 where it is damaged, else the number of the
    /// first record that is not read, differs, is missing or is one too many.
    Changed(SystemNo, u64),
    /// Memory ran out.
    OutOfMemory,
}

impl From<OutOfMemory> for Halt {
    ghost from_gives = { λ _ halt. halt ≡ NoMemory };

    fn from(_: OutOfMemory) -> Halt {
        Halt::OutOfMemory
    }
}

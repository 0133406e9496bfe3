//! What is wrong with a script.

use ale_base::OutOfMemory;
use thiserror::Error;

/// What is wrong with a script: the fault of its first line that is not read, by the number of the line, counted from 1.
#[derive(Clone, Copy, Debug, PartialEq, Eq, Error)]
pub enum ScriptFault {
    /// The line is no command.
    #[error("line {0}: no command")]
    Line(u32),
    /// It is line 100,001, and is a command, or is skipped.
    #[error("line {0}: over the limit of lines")]
    TooMany(u32),
    /// A request for memory was refused.
    #[error("out of memory")]
    OutOfMemory,
}

impl From<OutOfMemory> for ScriptFault {
    ghost use Rattle.std.specs.Prelude.{◌≡◌};
    ghost use Rattle.script_text.specs.declared.fault.ScriptFault.TheVariants.{OutOfMemory};

    ghost from_gives = { λ _ fault. fault ≡ OutOfMemory };

    fn from(_: OutOfMemory) -> ScriptFault {
        ScriptFault::OutOfMemory
    }
}

//! Why a system was not opened again.

ghost use Rattle.std.specs.Prelude.{◌≡◌};
ghost use Rattle.landscape.specs.declared.reopen_end.ReopenEnd.TheVariants.{OutOfMemory as NoMemory};
ghost use Rattle.landscape.specs.Reopened.{end_of};

use ale_base::OutOfMemory;
use unit_journal::LookFault;

/// Why a system was not opened again.
#[derive(Clone, Copy)]
pub enum ReopenEnd {
    /// It is up.
    Refused,
    /// A call on its volume failed. It stays down.
    Volume,
    /// Its volume stands neither for its log nor for that log and the record that it was writing as it fell: it was changed by others. The
    /// number is 0 where it is damaged, else that of the first record that is no entry, else that of the first that differs, is missing, or
    /// is one too many, counted from 1.
    Changed(u64),
    /// A request for memory was refused. The system stays down, and may be opened later.
    OutOfMemory,
}

impl From<LookFault> for ReopenEnd {
    ghost from_gives = { λ fault result. result ≡ end_of fault };

    fn from(fault: LookFault) -> ReopenEnd {
        match fault {
            LookFault::Volume => ReopenEnd::Volume,
            LookFault::Changed(number) => ReopenEnd::Changed(number),
            LookFault::OutOfMemory => ReopenEnd::OutOfMemory,
        }
    }
}

impl From<OutOfMemory> for ReopenEnd {
    ghost from_gives = { λ _ end. end ≡ NoMemory };

    fn from(_: OutOfMemory) -> ReopenEnd {
        ReopenEnd::OutOfMemory
    }
}

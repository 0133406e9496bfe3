//! Why a command is refused.

ghost use Rattle.std.specs.Prelude.{◌≡◌};
ghost use Rattle.status_log.specs.Refusal.{number_of};

use ale_base::{Items, OutOfMemory};
use idoc_tree::SyntaxFault;

/// Why a command was not carried out. One that is refused by a number appended no record and changed nothing.
#[derive(Drop)]
pub enum Refusal {
    /// 1: the system is unknown.
    N1,
    /// 2: the system is down.
    N2,
    /// 3: the document is unknown.
    N3,
    /// 4: the segments are no document of their IDoc type.
    N4(SyntaxFault),
    /// 5: the name is none of a queue, or the destination is the system itself.
    N5,
    /// 6: the unit is not outstanding there, or, for `late`, not committed.
    N6,
    /// 7: the unit is not marked CPICERR since its last retry, or is done.
    N7,
    /// 8: the last status of the document is not that which the command takes.
    N8,
    /// 9: the system is up already.
    N9,
    /// 10: the journal is full; it would have this length.
    N10(u64),
    /// 11: there would be too many units; this is their count.
    N11(u64),
    /// 12: a name is unknown, or a value does not fit.
    N12,
    /// 13: so many documents wait to be dispatched.
    N13(u64),
    /// 14: the file says no model; these words say why.
    N14(Items<u8>),
    /// 15: the new model does not keep what stands at this path of the one in force.
    N15(Items<u8>),
    /// The volume of the system failed.
    Volume,
    /// A request for memory was refused.
    OutOfMemory,
}

impl Refusal {
    /// The number of the refusal. None exactly where it has none.
    pub fn number(&self) -> Option<u8>
        ensures { result ≡ number_of self.now }
    {
        match self {
            Refusal::N1 => Some(1),
            Refusal::N2 => Some(2),
            Refusal::N3 => Some(3),
            Refusal::N4(_) => Some(4),
            Refusal::N5 => Some(5),
            Refusal::N6 => Some(6),
            Refusal::N7 => Some(7),
            Refusal::N8 => Some(8),
            Refusal::N9 => Some(9),
            Refusal::N10(_) => Some(10),
            Refusal::N11(_) => Some(11),
            Refusal::N12 => Some(12),
            Refusal::N13(_) => Some(13),
            Refusal::N14(_) => Some(14),
            Refusal::N15(_) => Some(15),
            Refusal::Volume | Refusal::OutOfMemory => None,
        }
    }
}

impl From<OutOfMemory> for Refusal {
    ghost use Rattle.std.specs.Prelude.{◌≡◌};
    ghost use Rattle.status_log.specs.declared.refusal.Refusal.TheVariants.{OutOfMemory};

    ghost from_gives = { λ _ refusal. refusal ≡ OutOfMemory };

    fn from(_: OutOfMemory) -> Refusal {
        Refusal::OutOfMemory
    }
}

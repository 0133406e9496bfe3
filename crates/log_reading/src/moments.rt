//! Whether a moment may follow another.

ghost use Rattle.std.specs.Prelude.{IsTrue, ◌↔◌};
ghost use Rattle.unit_journal.specs.OnDisk.{MayFollow};

/// Whether a moment may follow the one before it: it is not below that, and is there where that is.
pub(crate) fn may_come(before: Option<u64>, moment: Option<u64>) -> bool
    ensures { IsTrue result ↔ MayFollow before moment }
{
    match (before, moment) {
        (None, _) => true,
        (Some(_), None) => false,
        (Some(before), Some(moment)) => before <= moment,
    }
}

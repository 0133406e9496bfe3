//! What a look at the volume of a system found.

ghost use Rattle.std.specs.Prelude.{◌≡◌};
ghost use Rattle.unit_journal.specs.Looking.{system_of, is_found};

use crate::UnitJournal;
use ale_base::{Items, SystemNo};

/// What `SystemJournals::look` found on the volume of a system that is down: its journal, which is open, and the moments of
/// the entries of its log. `SystemJournals::settle` enters it.
#[derive(Drop)]
pub struct Looked {
    pub(crate) system: SystemNo,
    pub(crate) journal: UnitJournal,
    pub(crate) moments: Items<Option<u64>>,
    pub(crate) found: bool,
}

impl Looked {
    /// The system that was looked at.
    pub fn system(&self) -> SystemNo
        ensures { result ≡ system_of self.now }
    {
        self.system
    }

    /// Whether the record that was being written was found.
    pub fn is_found(&self) -> bool
        ensures { result ≡ is_found self.now }
    {
        self.found
    }
}

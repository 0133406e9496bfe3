//! The journals of all systems, and the moment that is set. `writing` has the write, `opening` the opening.

ghost use Rattle.std.specs.Prelude.{◌≡◌, ◌-◌, None};

use crate::UnitJournal;
use ale_base::{Items, SystemNo};
use std::alloc::Global;

/// The journals of all systems, the moments of the entries of each log, the moment that is set for the next, and the moment of a record
/// whose write failed.
///
/// System i, counted from 1, is at place i - 1, and so is its volume.
#[derive(Drop)]
pub struct SystemJournals {
    pub(crate) alloc: Global,
    pub(crate) journals: Items<UnitJournal>,
    pub(crate) moments: Items<Items<Option<u64>>>,
    pub(crate) moment: Option<u64>,
    // The moment with which a system's last record was written whose write failed.
    pub(crate) rests: [Option<u64>; 16],
}

impl SystemJournals {
    ghost use Rattle.unit_journal.specs.OnDisk.{count_of, moment_of, moments_at, HaveMoments};
    ghost use Rattle.unit_journal.specs.Changes.{with_moment};

    /// No journals, and no moment. It takes no memory.
    pub fn new(alloc: Global) -> SystemJournals
        ensures none { count_of result ≡ 0 }
        ensures moments { HaveMoments result }
        ensures moment { moment_of result ≡ None }
    {
        SystemJournals {
            alloc,
            journals: Items::new(alloc),
            moments: Items::new(alloc),
            moment: None,
            rests: [None; 16],
        }
    }

    /// How many systems have a journal.
    pub fn count(&self) -> usize
        ensures { result ≡ count_of self.now }
    {
        self.journals.len()
    }

    /// The moments of the entries of a system's log, oldest first: none of them where there is no such system.
    pub fn moments(&self, system: SystemNo) -> &[Option<u64>]
        ensures { result.now ≡ moments_at self.now (system - 1) }
    {
        match self.moments.get(system.get() as usize - 1) {
            Some(moments) => moments.as_slice(),
            None => &[],
        }
    }

    /// The moment that is set for what is written next.
    pub fn moment(&self) -> Option<u64>
        ensures { result ≡ moment_of self.now }
    {
        self.moment
    }

    /// Sets the moment for what is written next; `None` where none is known. A write takes the last of its log where that is
    /// larger. All else is as before.
    pub fn set_moment(&mut self, moment: Option<u64>)
        ensures { self.new ≡ with_moment moment self.old }
    {
        self.moment = moment;
    }
}

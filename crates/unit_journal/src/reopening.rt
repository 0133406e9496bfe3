//! The opening of the journal of a system that is down: a look at its volume, and what it found entered.

ghost use Rattle.std.specs.Prelude.{◌≡◌, ◌≢◌, ℕ, ◌-◌, ◌<◌, IfOk, IsErrOf};
ghost use Rattle.std.specs.Option.{option_copied};
ghost use Rattle.ale_volumes.specs.Clock.{LeavesOnly, KeepsOthers};
ghost use Rattle.ale_volumes.specs.Faults.{CountsFault};
ghost use Rattle.byte_journal.specs.Log.{ReadsAs};
ghost use Rattle.byte_journal.specs.Settled.{IsLeftByOpening, LeavesOnlyFromSync};
ghost use Rattle.unit_journal.specs.Log.{AreEntries};

use crate::comparing::is_found;
use crate::looked::Looked;
use crate::volume::parted;
use crate::{LookFault, SystemJournals, UnitJournal};
use ale_base::{Items, SystemNo};
use ale_volumes::Volumes;
use unit_codec::Entry;
use unit_core::Record;

impl SystemJournals {
    ghost use Rattle.unit_journal.specs.OnDisk.{count_of, HaveMoments, rest_at, entries_at, IsKept, IsLeftOnDisk};
    ghost use Rattle.unit_journal.specs.Changes.{OnlyAt};
    ghost use Rattle.unit_journal.specs.Looking.{Answers, IsLooked, LeavesLooked, system_of, with_looked};
    ghost use Rattle.unit_journal.specs.steps.Compared.{Compares};

    /// Opens the volume of a system that is down, and compares what it holds with the log of the system, and with the record
    /// that it was writing as it fell. No journal is changed: `settle` enters what was found.
    ///
    /// `Changed` comes where the volume holds neither the log nor the log and that record with the moment that is kept of it:
    /// then it was changed by others. After `Volume` and `OutOfMemory` the same call may succeed later.
    pub fn look<V: Volumes>(
        &self,
        vols: &mut V,
        system: SystemNo,
        log: &[Record],
        rest: Option<&Record>,
    ) -> Result<Looked, LookFault>
        requires moments { HaveMoments self.now }
        requires kept { IsKept (system - 1) self.now log.now (option_copied rest) }

        // Whether the volume stands for the log with the record or without, or where it stands for neither.
        ensures read { V.disk.told → Answers (V.disk.volume vols.old (system - 1)).contents
            (entries_at self.now (system - 1) log.now) (rest_at self.now (system - 1)) (option_copied rest.entry) result }
        // What was found, entered, is on the disk for good.
        ensures looked { IfOk result (λ looked. IsLooked V.disk vols.new system self.now log.now (option_copied rest.entry) looked) }
        // A volume that a crash may have left so is not changed, and a crash may leave it so again.
        ensures unchanged { V.disk.told → IsLeftOnDisk V.disk vols.old (system - 1) self.now log.now (option_copied rest.entry) →
            (number : ℕ) → result ≢ Err (LookFault.Changed number) }
        ensures left { IsLeftOnDisk V.disk vols.old (system - 1) self.now log.now (option_copied rest.entry) →
            IsLeftOnDisk V.disk vols.new (system - 1) self.now log.now (option_copied rest.entry) }

        // What a read gives is as before, but for a gate that is the last byte.
        ensures leaves { V.disk.told → LeavesLooked (V.disk.volume vols.old (system - 1)) (V.disk.volume vols.new (system - 1)) result }

        // A crash at any moment of the call leaves what was handed in, or what reads as it; from some moment on only the latter.
        ensures any_moment { V.disk.told → LeavesOnly V.disk vols.old vols.new (system - 1)
            (IsLeftByOpening (V.disk.volume vols.old (system - 1))) }
        ensures from_sync { V.disk.told → LeavesOnlyFromSync V.disk vols.old vols.new (system - 1)
            (IsErrOf result LookFault.Volume) (ReadsAs (V.disk.volume vols.old (system - 1)).contents) }
        ensures others { V.disk.told → KeepsOthers V.disk vols.old vols.new (system - 1) }
        ensures faults { CountsFault (IsErrOf result LookFault.Volume) (V.disk.faults vols.old) (V.disk.faults vols.new) (system - 1) }
    {
        let (journal, entries) = crate::open(self.alloc, vols, system.get() - 1)?;
        self.compared(system, journal, entries, log, rest)
    }

    /// What the journal and the entries that a system's volume gave are to the log that is kept of it.
    fn compared(
        &self,
        system: SystemNo,
        journal: UnitJournal,
        entries: Items<Entry>,
        log: &[Record],
        rest: Option<&Record>,
    ) -> Result<Looked, LookFault>
        requires found { AreEntries entries }
        requires kept { IsKept (system - 1) self.now log.now (option_copied rest) }
        ensures { Compares system journal entries (entries_at self.now (system - 1) log.now) (rest_at self.now (system - 1)) (option_copied rest.entry) result }
    {
        let moment = self.rests[system.get() as usize - 1];
        let found = is_found(
            self.alloc,
            entries.as_slice(),
            self.moments(system),
            log,
            moment,
            rest,
        )?;
        let (moments, _log) = parted(self.alloc, entries)?;
        Ok(Looked {
            system,
            journal,
            moments,
            found,
        })
    }

    /// Enters what a look found: the system's journal is open again, with the moments of its log, and no moment is kept of a
    /// record that may be found. All other systems are as before. It takes no memory.
    pub fn settle(&mut self, looked: Looked)
        requires place { system_of looked - 1 < count_of self.old }
        requires moments { HaveMoments self.old }
        ensures entered { self.new ≡ with_looked looked self.old }
        ensures one { OnlyAt (system_of looked - 1) self.old self.new }
    {
        let Looked {
            system,
            journal,
            moments,
            found: _,
        } = looked;
        let place = system.get() as usize - 1;
        *self.journals.at_mut(place) = journal;
        *self.moments.at_mut(place) = moments;
        self.rests[place] = None;
    }
}

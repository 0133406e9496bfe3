//! The opening of a system's journal, whatever a crash left on its volume.

ghost use Rattle.std.specs.Prelude.{◌≡◌, ◌<◌, IfOk, OnOk, OnErr, IsErrOf};
ghost use Rattle.ale_volumes.specs.Clock.{LeavesOnly, KeepsOthers};
ghost use Rattle.ale_volumes.specs.Faults.{CountsFault};
ghost use Rattle.byte_journal.specs.Log.{ReadsAs};
ghost use Rattle.byte_journal.specs.Settled.{IsLeftByOpening, LeavesOnlyFromSync};

use crate::volume::{Opened, open_volume};
use crate::{LogFault, SystemJournals, UnitJournal};
use ale_base::{Items, OutOfMemory};
use ale_volumes::Volumes;
use unit_core::Record;

impl SystemJournals {
    ghost use Rattle.unit_journal.specs.OnDisk.{count_of, HaveMoments, IsOnDisk};
    ghost use Rattle.unit_journal.specs.Changes.{with_system, IsNext};
    ghost use Rattle.unit_journal.specs.Opening.{Answers, LeavesOpened};

    /// Opens the volume of the next system, whatever a crash left there: its journal and the moments of its entries are kept,
    /// and its records given, oldest first.
    ///
    /// After every `Err` the journals are as before, and so are the bytes of the volume, but for a gate that is their last
    /// byte. `Damaged` comes where the volume stands for no log, and `Unread` where a
    /// record of it is no entry: then the volume is to be given up or mended. After `Volume` and `OutOfMemory` the same call
    /// may succeed later.
    pub fn open<V: Volumes>(&mut self, vols: &mut V) -> Result<Items<Record>, LogFault>
        requires room { count_of self.old < 16 }
        requires moments { HaveMoments self.old }

        // The system is up with the records that its volume stood for, behind all that were open, which are as before.
        ensures read { V.disk.told → Answers (V.disk.volume vols.old (count_of self.old)).contents self.new (count_of self.old) result }
        ensures opened { IfOk result (λ log. IsOnDisk V.disk vols.new (count_of self.old) self.new log) }
        ensures next { OnOk result (IsNext self.old self.new) }
        ensures err { OnErr result (self.new ≡ self.old) }

        // What a read gives is as before, but for a gate that is the last byte.
        ensures leaves { V.disk.told → LeavesOpened (V.disk.volume vols.old (count_of self.old)) (V.disk.volume vols.new (count_of self.old)) result }

        // A crash at any moment of the call leaves what was handed in, or what reads as it; from some moment on only the latter.
        ensures any_moment { V.disk.told → LeavesOnly V.disk vols.old vols.new (count_of self.old)
            (IsLeftByOpening (V.disk.volume vols.old (count_of self.old))) }
        ensures from_sync { V.disk.told → LeavesOnlyFromSync V.disk vols.old vols.new (count_of self.old)
            (IsErrOf result LogFault.Volume) (ReadsAs (V.disk.volume vols.old (count_of self.old)).contents) }
        ensures others { V.disk.told → KeepsOthers V.disk vols.old vols.new (count_of self.old) }
        ensures faults { CountsFault (IsErrOf result LogFault.Volume) (V.disk.faults vols.old) (V.disk.faults vols.new) (count_of self.old) }
    {
        let place = self.journals.len();
        let opened = open_volume(self.alloc, vols, place as u8)?;
        Ok(self.add(opened)?)
    }

    /// One system more, of which what its volume gave is kept; its records are given. After an `Err` all is as before.
    fn add(&mut self, opened: Opened) -> Result<Items<Record>, OutOfMemory>
        ensures ok { IfOk result (λ log. (log ≡ opened.log) × (self.new ≡ with_system self.old opened.journal opened.moments)) }
        ensures err { OnErr result (self.new ≡ self.old) }
    {
        let Opened {
            journal,
            moments,
            log,
        } = opened;
        self.push(journal, moments)?;
        Ok(log)
    }

    /// One system more, of which this journal and these moments are kept. After an `Err` all is as before.
    fn push(&mut self, journal: UnitJournal, moments: Items<Option<u64>>) -> Result<(), OutOfMemory>
        ensures ok { OnOk result (self.new ≡ with_system self.old journal moments) }
        ensures err { OnErr result (self.new ≡ self.old) }
    {
        self.journals.push(journal)?;
        match self.moments.push(moments) {
            Ok(()) => Ok(()),
            Err(fault) => {
                let _journal = self.journals.pop();
                Err(fault)
            }
        }
    }
}

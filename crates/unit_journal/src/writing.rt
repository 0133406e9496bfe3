//! The write of a record to the journal of a system.

ghost use Rattle.std.specs.Prelude.{◌≡◌, ◌≢◌, ℕ, List, [], ◌∷◌, ◌++◌, ◌+◌, ◌-◌, ◌<◌, ◌↔◌, length, slice_index_or, IfOk, OnOk, IsErrOf, None, Some};
ghost use Rattle.ale_volumes.specs.Clock.{LeavesOnly, KeepsOthers};
ghost use Rattle.ale_volumes.specs.Faults.{CountsFault};
ghost use Rattle.byte_journal.specs.Log.{most_bytes};
ghost use Rattle.unit_core.specs.declared.records.Record.{Record};
ghost use Rattle.unit_codec.specs.Condition.{IsWritable};
ghost use Rattle.unit_codec.specs.Entries.{entry_with};
ghost use Rattle.unit_journal.specs.Settled.{IsBeforeOrAfter};
ghost use Rattle.unit_journal.specs.steps.Moments.{rests_after};

use crate::SystemJournals;
use crate::moments::{last, later, note, take_back};
use ale_base::{OutOfMemory, SystemNo};
use ale_volumes::Volumes;
use byte_journal::AppendFault;
use unit_core::Record;

impl SystemJournals {
    ghost use Rattle.unit_journal.specs.OnDisk.{next_moment, moments_at, entries_at, length_with, IsAtEndOf, IsOnDisk, IsLeftOnDisk};
    ghost use Rattle.unit_journal.specs.Changes.{OnlyAt, LeftBy};

    /// Adds a record to the log of a system that is up. Its moment is the one that is set, or the last of the log where that
    /// is larger. At `Ok` it is acknowledged: each crash from then on leaves it.
    ///
    /// After every `Err` the journals are as before, but that after `Volume` the moment of the record is kept: it may be in the log on the
    /// volume or not, and the system is to be opened again before further use. `Full` comes where its volume would have more than 67,108,864 bytes,
    /// and names that length; then nothing was written. After `OutOfMemory` the log on the volume is as before.
    pub fn write<V: Volumes>(
        &mut self,
        vols: &mut V,
        system: SystemNo,
        next: &Record,
    ) -> Result<(), AppendFault>
        requires entry { IsWritable next.now }
        requires on_disk { (log : List Record) × IsOnDisk V.disk vols.old (system - 1) self.old log }

        // The log on the volume has the record; or perhaps, where the volume failed; or it has it not.
        ensures written { (log : List Record) → IsOnDisk V.disk vols.old (system - 1) self.old log →
            OnOk result (IsOnDisk V.disk vols.new (system - 1) self.new (log ++ next.now ∷ [])) }
        ensures torn { (log : List Record) → IsOnDisk V.disk vols.old (system - 1) self.old log →
            IsErrOf result AppendFault.Volume → IsLeftOnDisk V.disk vols.new (system - 1) self.new log (Some next.now) }
        ensures unwritten { (log : List Record) → IsOnDisk V.disk vols.old (system - 1) self.old log →
            IsErrOf result AppendFault.OutOfMemory → IsOnDisk V.disk vols.new (system - 1) self.new log }

        // When the volume is too small, and the length that it would have.
        ensures full { (log : List Record) → IsOnDisk V.disk vols.old (system - 1) self.old log → (place : ℕ) →
            result ≢ Err AppendFault.OutOfMemory → (result ≡ Err (AppendFault.Full place))
            ↔ ((place ≡ length_with (entries_at self.old (system - 1) log) (entry_with (next_moment self.old (system - 1)) next.now)) × (most_bytes < place)) }
        ensures full_same { (place : ℕ) → result ≡ Err (AppendFault.Full place) → vols.new ≡ vols.old }

        // What stays: all after an error but the moment of a record that may be found, and always all that is of other systems.
        ensures left { LeftBy (system - 1) self.old self.new result }
        ensures one { OnlyAt (system - 1) self.old self.new }
        ensures grown { OnOk result (moments_at self.new (system - 1) ≡ moments_at self.old (system - 1) ++ next_moment self.old (system - 1) ∷ []) }

        // A crash at any moment of the call leaves the log from before it, or with the record and its moment.
        ensures any_moment { V.disk.told → (log : List Record) → IsOnDisk V.disk vols.old (system - 1) self.old log →
            LeavesOnly V.disk vols.old vols.new (system - 1)
            (IsBeforeOrAfter (entries_at self.old (system - 1) log) (entry_with (next_moment self.old (system - 1)) next.now)) }
        ensures others { V.disk.told → KeepsOthers V.disk vols.old vols.new (system - 1) }
        ensures faults { CountsFault (IsErrOf result AppendFault.Volume) (V.disk.faults vols.old) (V.disk.faults vols.new) (system - 1) }
    {
        let place = system.get() as usize - 1;
        let moment = self.next_moment(system);
        // The moment first: a write that succeeded can't be taken back, and a moment can.
        note(&mut self.moments, place, moment)?;
        match self.journals.at_mut(place).append(vols, moment, next) {
            Ok(()) => Ok(()),
            Err(fault) => {
                take_back(&mut self.moments, place);
                keep_rest(&mut self.rests, place, moment, fault);
                Err(fault)
            }
        }
    }

    /// How long the volume of a system that is up would be with a record behind its log, in bytes: `write` answers `Full` with this length
    /// where it is over 67,108,864. It writes nothing.
    pub fn size_with(&self, system: SystemNo, next: &Record) -> Result<u64, OutOfMemory>
        requires entry { IsWritable next.now }
        requires open { (log : List Record) × IsAtEndOf (system - 1) self.now log }
        ensures { (log : List Record) → IsAtEndOf (system - 1) self.now log → IfOk result (λ size. size
            ≡ length_with (entries_at self.now (system - 1) log) (entry_with (next_moment self.now (system - 1)) next.now)) }
    {
        let place = system.get() as usize - 1;
        let moment = self.next_moment(system);
        self.journals.as_slice()[place].length_with(moment, next)
    }

    /// The moment of the next record of a system: the larger of the one that is set and the last of its log.
    fn next_moment(&self, system: SystemNo) -> Option<u64>
        ensures { result ≡ next_moment self.now (system - 1) }
    {
        later(self.moment, last(self.moments(system)))
    }
}

/// The moment of a record is kept whose write failed since the volume did.
fn keep_rest(rests: &mut [Option<u64>; 16], place: usize, moment: Option<u64>, fault: AppendFault)
    requires { place < 16 }
    ensures kept { rests.new ≡ rests_after rests.old place moment fault }
    ensures found { fault ≡ AppendFault.Volume → slice_index_or rests.new place None ≡ moment }
{
    if let AppendFault::Volume = fault {
        rests[place] = moment;
    }
}

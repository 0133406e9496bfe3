//! A journal of entries that is open, and the append of an entry to it.

ghost use Rattle.std.specs.Prelude.{◌≡◌, ◌≢◌, ℕ, List, [], ◌∷◌, ◌++◌, ◌+◌, ◌<◌, ◌↔◌, length, IfOk, OnOk, IsErrOf};
ghost use Rattle.ale_volumes.specs.Clock.{LeavesOnly, KeepsOthers};
ghost use Rattle.ale_volumes.specs.Faults.{CountsFault};
ghost use Rattle.byte_journal.specs.Log.{most_bytes};
ghost use Rattle.byte_journal.specs.Bytes.{LeavesAppended};
ghost use Rattle.unit_codec.specs.declared.entry.Entry.{Entry};
ghost use Rattle.unit_codec.specs.Condition.{IsWritable};
ghost use Rattle.unit_codec.specs.Entries.{EntryHasSpelling, entry_with, entry_spelling};

use ale_base::OutOfMemory;
use ale_volumes::Volumes;
use byte_journal::{AppendFault, Journal};
use std::alloc::Global;
use unit_codec::write_entry;
use unit_core::Record;

/// A journal of entries that is open on a volume. It stands at the end of the volume's log and doesn't hold the log
/// itself.
#[derive(Drop)]
pub struct UnitJournal {
    alloc: Global,
    /// The journal of the entries' spellings. Only `append` moves it.
    bodies: Journal,
}

impl UnitJournal {
    ghost use Rattle.unit_journal.specs.Settled.{bodies, IsSettled, MovesOn, IsBeforeOrAfter};

    /// A journal of entries over one of bodies.
    pub(crate) fn over(alloc: Global, of: Journal) -> UnitJournal
        ensures { bodies result ≡ of }
    {
        UnitJournal { alloc, bodies: of }
    }

    /// The number of its volume, below 16.
    pub fn volume(&self) -> u8
        ensures { result ≡ (bodies self.now).volume }
    {
        self.bodies.volume
    }

    /// The place of the log's last gate in the volume, from 0.
    pub fn gate(&self) -> u64
        ensures { result ≡ (bodies self.now).gate }
    {
        self.bodies.gate
    }

    /// Adds the entry of a record, with this moment or without one, to the log. At `Ok` it is acknowledged: each crash from
    /// then on leaves it.
    ///
    /// `Full` comes where the place behind the new closing gate is over 67,108,864, and names that place; then nothing was
    /// written. After `Volume` the journal is to be opened again before further use. The room for the entry's bytes is
    /// taken before anything is written, so after `OutOfMemory` the log is as before.
    pub fn append<V: Volumes>(
        &mut self,
        vols: &mut V,
        moment: Option<u64>,
        what: &Record,
    ) -> Result<(), AppendFault>
        requires entry { IsWritable what.now }
        requires settled { V.disk.told → (log : List Entry) × IsSettled V.disk vols.old self.old log }

        // The log has one entry more.
        ensures added { V.disk.told → (log : List Entry) → IsSettled V.disk vols.old self.old log →
            OnOk result (IsSettled V.disk vols.new self.new (log ++ entry_with moment what.now ∷ [])) }
        ensures moves_on { MovesOn self.old self.new (entry_with moment what.now) result }
        ensures spelled { OnOk result (EntryHasSpelling (entry_with moment what.now)) }

        // The volume holds what it held, the gate open, length, spelling, a closed gate, and what lay further back.
        ensures leaves { V.disk.told → LeavesAppended (V.disk.volume vols.old (bodies self.old).volume).contents
            (bodies self.old).gate (entry_spelling (entry_with moment what.now))
            (V.disk.volume vols.new (bodies self.old).volume).contents result }

        // A crash at any moment of the call leaves the log from before it, with the new entry or without.
        ensures any_moment { V.disk.told → (log : List Entry) → IsSettled V.disk vols.old self.old log →
            LeavesOnly V.disk vols.old vols.new (bodies self.old).volume
            (IsBeforeOrAfter log (entry_with moment what.now)) }
        ensures others { V.disk.told → KeepsOthers V.disk vols.old vols.new (bodies self.old).volume }

        // When each error comes, and what is then as it was.
        ensures full { (place : ℕ) → result ≢ Err AppendFault.OutOfMemory → (result ≡ Err (AppendFault.Full place))
            ↔ ((place ≡ (bodies self.old).gate + 6 + length (entry_spelling (entry_with moment what.now)))
            × (most_bytes < place)) }
        ensures full_unwritten { (place : ℕ) → result ≡ Err (AppendFault.Full place) → vols.new ≡ vols.old }
        ensures no_memory { V.disk.told → (log : List Entry) → IsSettled V.disk vols.old self.old log →
            IsErrOf result AppendFault.OutOfMemory → IsSettled V.disk vols.new self.new log }
        ensures faults { CountsFault (IsErrOf result AppendFault.Volume)
            (V.disk.faults vols.old) (V.disk.faults vols.new) (bodies self.old).volume }
    {
        let body = write_entry(self.alloc, moment, what)?;
        self.bodies.append(vols, &body)
    }

    /// How long its volume would be with the entry of a record behind the log, in bytes, up to the gate behind that. It writes nothing.
    pub fn length_with(&self, moment: Option<u64>, what: &Record) -> Result<u64, OutOfMemory>
        requires { IsWritable what.now }
        ensures { IfOk result (λ place. place ≡ (bodies self.now).gate + 6 + length (entry_spelling (entry_with moment what.now))) }
    {
        let body = write_entry(self.alloc, moment, what)?;
        Ok(self.bodies.gate + 6 + body.len() as u64)
    }
}

//! A journal that is open, and the append of a body to it.

ghost use Rattle.std.specs.Prelude.{◌≡◌, ◌≢◌, ℕ, List, [], ◌∷◌, ◌++◌, ◌+◌, ◌<◌, ◌↔◌, length, IfOk, OnOk, IsErrOf};
ghost use Rattle.byte_journal.specs.Log.{framed};
ghost use Rattle.ale_volumes.specs.Clock.{LeavesOnly, KeepsOthers};
ghost use Rattle.ale_volumes.specs.Faults.{CountsFault};

use crate::AppendFault;
use crate::write_synced::write_synced;
use ale_base::OutOfMemory;
use ale_volumes::Volumes;
use std::alloc::Global;

/// A journal that is open on a volume. It stands at the end of the volume's log and doesn't hold the log itself.
#[derive(Drop)]
pub struct Journal {
    alloc: Global,
    /// The number of its volume, below 16.
    pub volume: u8,
    /// The place of the log's last gate in the volume, from 0.
    pub gate: u64,
    pub ghost volume_in_range: { volume < 16 },
    pub ghost gate_in_range: { gate < 67108864 },
}

impl Journal {
    ghost use Rattle.byte_journal.specs.Bytes.{LeavesAppended};
    ghost use Rattle.byte_journal.specs.Settled.{IsSettled, MovesOn, IsBeforeOrAfter};

    /// The byte of an open gate, an upper case O. Each other byte is a closed gate.
    pub const OPEN_GATE: u8 = 0x4f;

    /// The byte that is written for a closed gate.
    pub const CLOSED_GATE: u8 = 0;

    /// Each gate of a log lies within this many bytes.
    pub const MOST_BYTES: u64 = 67_108_864;

    /// A journal that stands at this gate of this volume.
    pub(crate) fn at(alloc: Global, volume: u8, gate: u64) -> Journal
        requires volume { volume < 16 }
        requires gate { gate < Journal.MOST_BYTES }
        ensures volume { result.volume ≡ volume }
        ensures gate { result.gate ≡ gate }
    {
        Journal {
            alloc,
            volume,
            gate,
        }
    }

    /// Adds a body to the log. At `Ok` it is acknowledged: each crash from then on leaves it.
    ///
    /// It writes the body's length, the body and a closed gate behind the last gate, syncs, opens the last gate, and
    /// syncs. `Full` comes where the place behind the new closing gate is over 67,108,864, and names that place; then
    /// nothing was written. After `Volume` the journal is to be opened again before further use.
    pub fn append<V: Volumes>(&mut self, vols: &mut V, body: &[u8]) -> Result<(), AppendFault>
        requires body { 0 < length body.now }
        requires settled { V.disk.told → (log : List (List ℕ)) × IsSettled V.disk vols.old self.old log }

        // The log has one body more.
        ensures added { V.disk.told → (log : List (List ℕ)) → IsSettled V.disk vols.old self.old log →
            OnOk result (IsSettled V.disk vols.new self.new (log ++ body.now ∷ [])) }
        ensures moves_on { MovesOn self.old self.new body.now result }

        // The volume holds what it held, the gate open, length, body, a closed gate, and what lay further back.
        ensures leaves { V.disk.told → LeavesAppended (V.disk.volume vols.old self.old.volume).contents self.old.gate body.now
            (V.disk.volume vols.new self.old.volume).contents result }

        // A crash at any moment of the call leaves the log from before it, with the new body or without.
        ensures any_moment { V.disk.told → (log : List (List ℕ)) → IsSettled V.disk vols.old self.old log →
            LeavesOnly V.disk vols.old vols.new self.old.volume (IsBeforeOrAfter log body.now) }
        ensures others { V.disk.told → KeepsOthers V.disk vols.old vols.new self.old.volume }

        // When each error comes, and what is then as it was.
        ensures full { (place : ℕ) → (result ≡ Err (AppendFault.Full place))
            ↔ ((place ≡ self.old.gate + 6 + length body.now) × (Journal.MOST_BYTES < place)) }
        ensures full_unwritten { (place : ℕ) → result ≡ Err (AppendFault.Full place) → vols.new ≡ vols.old }
        ensures no_memory { V.disk.told → (log : List (List ℕ)) → IsSettled V.disk vols.old self.old log →
            IsErrOf result AppendFault.OutOfMemory → IsSettled V.disk vols.new self.new log }
        ensures faults { CountsFault (IsErrOf result AppendFault.Volume)
            (V.disk.faults vols.old) (V.disk.faults vols.new) self.old.volume }
    {
        let next = self.gate + 5 + body.len() as u64;
        if next >= Journal::MOST_BYTES {
            return Err(AppendFault::Full(next + 1));
        }
        let block = block_of(self.alloc, body)?;
        write_synced(vols, self.volume, self.gate + 1, &block)?;
        // The record is on the disk for good, so from here on it hangs on this one byte whether it is in the log.
        write_synced(vols, self.volume, self.gate, &[Journal::OPEN_GATE])?;
        self.gate = next;
        Ok(())
    }
}

/// What stands behind the gate of a record: the body's length, the body, and a closed gate.
fn block_of(alloc: Global, body: &[u8]) -> Result<Vec<u8>, OutOfMemory>
    requires { length body.now < Journal.MOST_BYTES }
    ensures { IfOk result (λ block. block.items ≡ framed body.now ++ 0 ∷ []) }
{
    let mut block = Vec::with_capacity(alloc, body.len() + 5)?;
    block.extend_from_slice(&(body.len() as u32).to_be_bytes())?;
    block.extend_from_slice(body)?;
    block.push(Journal::CLOSED_GATE)?;
    Ok(block)
}

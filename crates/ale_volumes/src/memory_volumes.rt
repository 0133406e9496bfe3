//! Volumes in memory, of which chosen calls fail, and what a crash at any moment leaves of them.

ghost use Rattle.std.specs.Prelude.{◌≡◌, ◌<◌, [], length, replicate, slice_set, slice_index_or, OnOk, OnErr};
ghost use Rattle.ale_volumes.specs.Memory.{contents_after};

use crate::overwrite::write_over;
use crate::replay::{at_last_sync, contents_after as contents_after_steps};
use crate::volume::copy_of;
use crate::{DeviceCalls, Step, Survivors, Volume, VolumeEnd, VolumeFailed, Volumes};
use ale_base::{Items, OutOfMemory};
use std::alloc::Global;
use std::array;
use std::marker::Model;

/// Sixteen volumes in memory, of which chosen calls fail, once each.
///
/// It keeps the record of its writes and syncs, whose length is its clock, and so makes whatever a crash at any moment
/// may leave. A failing write leaves the first half of its bytes, rounded up, as far as they lie within the volume's
/// length, which stays. A failing sync does nothing. A sync of a volume with no write since its last one adds no step.
#[derive(Drop)]
pub struct MemoryVolumes {
    alloc: Global,
    // What the volumes held at first.
    start: [Items<u8>; 16],
    steps: Vec<Step>,
    calls: DeviceCalls,
    // What they hold.
    held: [Items<u8>; 16],
    // Which of them have a write since their last sync. There is room for the step of that sync.
    unsynced: [bool; 16],
}

impl Model for MemoryVolumes {
    ghost use Rattle.ale_volumes.specs.Memory.{MemoryOf, IsKept};
    ghost use Rattle.std.specs.Prelude.{vec_capacity};

    ghost Value = { MemoryOf };

    ghost view = { λ memory. record { start = memory.start; steps = memory.steps.items; calls = memory.calls } };

    ghost invariant = { λ memory.
        IsKept memory.start memory.steps.items memory.held memory.unsynced (vec_capacity memory.steps) };
}

impl MemoryVolumes {
    ghost use Rattle.std.specs.Prelude.{◌≡◌, ◌<◌, ◌≤◌, ◌++◌, ◌+◌, ◌-◌, ◌^◌, ◌↔◌, min, [], ◌∷◌, length, take, replicate, slice_index, IfOk, OnOk, OnErr, IsTrue};
    ghost use Rattle.ale_volumes.specs.declared.step.Step.TheVariants.{Write, Sync};
    ghost use Rattle.ale_volumes.specs.Memory.{after_steps, AddsSync};
    ghost use Rattle.ale_volumes.specs.Calls.{CountsCall, NextFails};
    ghost use Rattle.ale_volumes.specs.Faults.{CountsFault};
    ghost use Rattle.ale_volumes.specs.Survivors.{surviving};
    ghost use Rattle.ale_volumes.specs.Volume.{IsImage};

    /// Sixteen empty volumes, of which no call fails. It takes no memory.
    pub fn new(alloc: Global) -> MemoryVolumes
        ensures { result ≡ record {
          start = replicate 16 [];
          steps = [];
          calls = record { failing = []; made = 0; faults = replicate 16 0 };
        } }
    {
        MemoryVolumes {
            alloc,
            start: empty_volumes(alloc),
            steps: Vec::new(alloc),
            calls: DeviceCalls::with_failures(Items::new(alloc)),
            held: empty_volumes(alloc),
            unsynced: [false; 16],
        }
    }

    /// Volumes that hold these bytes for good, as after a restart, of which no call fails.
    pub fn with_contents(
        alloc: Global,
        contents: [Items<u8>; 16],
    ) -> Result<MemoryVolumes, OutOfMemory>
        ensures { IfOk result (λ memory. memory ≡ record {
          start = contents;
          steps = [];
          calls = record { failing = []; made = 0; faults = replicate 16 0 };
        }) }
    {
        MemoryVolumes::with_failures(alloc, contents, Items::new(alloc))
    }

    /// Volumes that hold these bytes for good, of which the calls of these numbers will fail, counted from 1 over all
    /// volumes.
    pub fn with_failures(
        alloc: Global,
        contents: [Items<u8>; 16],
        failing: Items<u64>,
    ) -> Result<MemoryVolumes, OutOfMemory>
        ensures { IfOk result (λ memory. memory ≡ record {
          start = contents;
          steps = [];
          calls = record { failing = failing; made = 0; faults = replicate 16 0 };
        }) }
    {
        let mut held = empty_volumes(alloc);
        for i in 0..16 {
            held[i] = copy_of(alloc, contents[i].as_slice())?;
        }
        Ok(MemoryVolumes {
            alloc,
            start: contents,
            steps: Vec::new(alloc),
            calls: DeviceCalls::with_failures(failing),
            held,
            unsynced: [false; 16],
        })
    }

    /// The calls so far.
    pub fn calls(&self) -> &DeviceCalls
        ensures { result.now ≡ self.now.calls }
    {
        &self.calls
    }

    /// What volume `n` holds. This is no call on a volume.
    pub fn contents(&self, n: u8) -> &[u8]
        requires { n < 16 }
        ensures { result.now ≡ (after_steps self.now.start self.now.steps n).contents }
    {
        self.held[usize::from(n)].as_slice()
    }

    /// The clock: how many steps the record has.
    pub fn clock(&self) -> u64
        ensures { result ≡ length self.now.steps }
    {
        self.steps.len() as u64
    }

    /// What was known of volume `n` at a moment. Its cost is linear in the steps and bytes of the record.
    pub fn volume_at(&self, moment: u64, n: u8) -> Result<Volume, OutOfMemory>
        requires moment { moment ≤ length self.now.steps }
        requires number { n < 16 }
        ensures { IfOk result (λ volume. volume ≡ after_steps self.now.start (take moment self.now.steps) n) }
    {
        let (steps, _) = self.steps.as_slice().split_at(moment as usize);
        // A sync makes durable what a read gives, so up to the last one only that is asked. This keeps the cost linear.
        let (durable, since) = at_last_sync(steps, n);
        let start = self.start[usize::from(n)].as_slice();
        let held = contents_after_steps(self.alloc, start, n, durable)?;
        let mut volume = Volume::settled(self.alloc, held.as_slice())?;
        for step in since {
            volume = volume.after(self.alloc, n, step)?;
        }
        Ok(volume)
    }

    /// What a crash at a moment leaves of volume `n`, by this choice of what survives of the writes that were not synced
    /// then. Its cost is linear in the steps and bytes of the record.
    pub fn image(&self, moment: u64, n: u8, survivors: &Survivors) -> Result<Items<u8>, OutOfMemory>
        requires moment { moment ≤ length self.now.steps }
        requires number { n < 16 }
        ensures image { IfOk result (IsImage (after_steps self.now.start (take moment self.now.steps) n)) }
        ensures chosen { IfOk result (λ image.
            image ≡ surviving (after_steps self.now.start (take moment self.now.steps) n) survivors.now) }
    {
        self.volume_at(moment, n)?.image(self.alloc, survivors)
    }

    /// Counts a call on a volume. True exactly where it is to fail, and then it is a fault.
    fn fails(&mut self, n: u8) -> bool
        requires { n < 16 }
        ensures kept { self.new ≡ record self.old { calls = self.new.calls } }
        ensures chosen { IsTrue result ↔ NextFails self.old.calls.failing self.old.calls.made }
        ensures counts { CountsCall self.old.calls self.new.calls n (IsTrue result) }
        ensures faults { CountsFault (IsTrue result)
            (slice_index self.old.calls.faults) (slice_index self.new.calls.faults) n }
    {
        let fails = self.next_fails();
        if fails {
            self.fault(n);
        }
        fails
    }

    /// Counts a call. True exactly where it is to fail.
    fn next_fails(&mut self) -> bool
        ensures made { self.new ≡ record self.old {
          calls =
              record self.old.calls { made = min (self.old.calls.made + 1) (2 ^ 64 - 1) };
        } }
        ensures chosen { IsTrue result ↔ NextFails self.old.calls.failing self.old.calls.made }
    {
        self.calls.next_fails()
    }

    /// Counts a fault of a volume.
    fn fault(&mut self, n: u8)
        requires { n < 16 }
        ensures fault { self.new ≡ record self.old {
          calls =
              record self.old.calls {
                faults = slice_set self.old.calls.faults n (min (slice_index self.old.calls.faults n + 1) (2 ^ 64 - 1));
              };
        } }
        ensures counted { CountsFault (Unit {0}) (slice_index self.old.calls.faults) (slice_index self.new.calls.faults) n }
    {
        self.calls.fault(n);
    }

    /// Writes to a volume, and adds that to the record. A write that fails leaves a part.
    fn add_write(&mut self, n: u8, at: u64, bytes: &[u8], failed: bool) -> Result<(), OutOfMemory>
        requires { n < 16 }
        ensures ok { OnOk result
            (self.new ≡ record self.old { steps = self.old.steps ++ Write n at bytes.now failed ∷ [] }) }
        ensures err { OnErr result (self.new ≡ self.old) }
    {
        let volume = usize::from(n);
        let copy = copy_of(self.alloc, bytes)?;
        self.steps.reserve(17)?;
        write_in(
            self.alloc,
            &mut self.held,
            volume,
            at as usize,
            bytes,
            failed,
        )?;
        self.unsynced[volume] = true;
        let _ = self.steps.push(Step::Write {
            volume: n,
            at,
            bytes: copy,
            failed,
        });
        Ok(())
    }

    /// Syncs a volume, and adds that to the record where there was a write since its last sync.
    fn add_sync(&mut self, n: u8)
        requires { n < 16 }
        ensures kept { self.new ≡ record self.old { steps = self.new.steps } }
        ensures steps { AddsSync self.old self.new n }
    {
        if self.unsynced[usize::from(n)] {
            self.unsynced[usize::from(n)] = false;
            let _ = self.steps.push(Step::Sync { volume: n });
        }
    }
}

impl Volumes for MemoryVolumes {
    ghost use Rattle.std.specs.Prelude.{◌≡◌, ◌≢◌, ◌↔◌, ◌∷◌, ◌++◌, [], ℕ, List, ◌+◌, ◌-◌, ◌^◌, ◌<◌, ◌≤◌, min, length, take, drop, slice_index, IfOk, OnOk, OnErr, IsErr, IsErrOf};
    ghost use Rattle.ale_volumes.specs.declared.step.Step.TheVariants.{Write};
    ghost use Rattle.ale_volumes.specs.Memory.{half_written, AddsSync};
    ghost use Rattle.std.specs.Result.{is_err};
    ghost use Rattle.ale_volumes.specs.Volume.{IsImage, settled, written, FailsToWrite};
    ghost use Rattle.ale_volumes.specs.Clock.{Elapses, KeepsOthers};
    ghost use Rattle.ale_volumes.specs.Faults.{CountsFault};
    ghost use Rattle.ale_volumes.specs.Calls.{CountsCall, NextFails};
    ghost use Rattle.ale_volumes.specs.MemoryLemmas.{memory, volume_now, counts_now, only_now, after_steps-read};

    ghost disk = { memory };

    ghost read_is_image = { λ told memory n. after_steps-read memory.start memory.steps n };

    ghost counts_now = { λ told memory n t image. counts_now memory n t image };

    ghost only_now = { λ told memory n image. only_now memory n image };

    fn length(&mut self, n: u8) -> Result<u64, VolumeFailed>
        requires { n < 16 }
        ensures length { IfOk result (λ len. len ≡ length (volume_now self.old n).contents) }
        ensures same { volume_now self.new n ≡ volume_now self.old n }
        ensures kept { self.new ≡ record self.old { calls = self.new.calls } }
        ensures time { Elapses memory self.old self.new n }
        ensures others { KeepsOthers memory self.old self.new n }
        ensures faults { CountsFault (IsErr result)
            (slice_index self.old.calls.faults) (slice_index self.new.calls.faults) n }

        // It fails exactly at the calls that are to fail, and counts one fault then.
        ensures chosen { IsErr result ↔ NextFails self.old.calls.failing self.old.calls.made }
        ensures counts { CountsCall self.old.calls self.new.calls n (IsErr result) }
    {
        if self.fails(n) {
            return Err(VolumeFailed);
        }
        Ok(self.held[usize::from(n)].len() as u64)
    }

    fn read_at(&mut self, n: u8, at: u64, into: &mut [u8]) -> Result<(), VolumeFailed>
        requires number { n < 16 }
        requires range { at + length into.old ≤ length (volume_now self.old n).contents }
        ensures read { OnOk result (into.new ≡ take (length into.old) (drop at (volume_now self.old n).contents)) }
        ensures same { volume_now self.new n ≡ volume_now self.old n }
        ensures kept { self.new ≡ record self.old { calls = self.new.calls } }
        ensures time { Elapses memory self.old self.new n }
        ensures others { KeepsOthers memory self.old self.new n }
        ensures faults { CountsFault (IsErr result)
            (slice_index self.old.calls.faults) (slice_index self.new.calls.faults) n }

        // It fails exactly at the calls that are to fail, and counts one fault then.
        ensures chosen { IsErr result ↔ NextFails self.old.calls.failing self.old.calls.made }
        ensures counts { CountsCall self.old.calls self.new.calls n (IsErr result) }
    {
        if self.fails(n) {
            return Err(VolumeFailed);
        }
        let (_, behind) = self.held[usize::from(n)].as_slice().split_at(at as usize);
        let (range, _) = behind.split_at(into.len());
        into.copy_from_slice(range);
        Ok(())
    }

    fn write_at(&mut self, n: u8, at: u64, bytes: &[u8]) -> Result<(), VolumeEnd>
        requires number { n < 16 }
        requires place { at ≤ length (volume_now self.old n).contents }
        ensures written { OnOk result (volume_now self.new n ≡ written (volume_now self.old n) at bytes.now) }
        ensures torn { IsErrOf result VolumeEnd.Failed →
            FailsToWrite (volume_now self.old n) at bytes.now (volume_now self.new n) }
        ensures unwritten { IsErrOf result VolumeEnd.OutOfMemory → volume_now self.new n ≡ volume_now self.old n }
        ensures time { Elapses memory self.old self.new n }
        ensures others { KeepsOthers memory self.old self.new n }
        ensures faults { CountsFault (IsErrOf result VolumeEnd.Failed)
            (slice_index self.old.calls.faults) (slice_index self.new.calls.faults) n }

        // It fails exactly at the calls that are to fail, unless memory runs out, and counts one fault then. A write that
        // fails leaves half of its bytes.
        ensures chosen { IsErrOf result VolumeEnd.Failed → NextFails self.old.calls.failing self.old.calls.made }
        ensures fails { NextFails self.old.calls.failing self.old.calls.made → IsErr result }
        ensures counts { CountsCall self.old.calls self.new.calls n (IsErrOf result VolumeEnd.Failed) }
        ensures half { IsErrOf result VolumeEnd.Failed →
            volume_now self.new n ≡ half_written (volume_now self.old n) at bytes.now }

        // What the volumes held at first stays, and the record has this write more, unless memory runs out.
        ensures kept { self.new ≡ record self.old { steps = self.new.steps; calls = self.new.calls } }
        ensures recorded { result ≢ Err VolumeEnd.OutOfMemory →
            self.new.steps ≡ self.old.steps ++ Write n at bytes.now (is_err result) ∷ [] }
        ensures unrecorded { IsErrOf result VolumeEnd.OutOfMemory → self.new.steps ≡ self.old.steps }
    {
        let fails = self.next_fails();
        self.add_write(n, at, bytes, fails)?;
        if fails {
            self.fault(n);
            return Err(VolumeEnd::Failed);
        }
        Ok(())
    }

    fn sync(&mut self, n: u8) -> Result<(), VolumeFailed>
        requires { n < 16 }
        ensures durable { OnOk result (volume_now self.new n ≡ settled (volume_now self.old n).contents) }
        ensures err { OnErr result (volume_now self.new n ≡ volume_now self.old n) }
        ensures time { Elapses memory self.old self.new n }
        ensures others { KeepsOthers memory self.old self.new n }
        ensures faults { CountsFault (IsErr result)
            (slice_index self.old.calls.faults) (slice_index self.new.calls.faults) n }

        // It fails exactly at the calls that are to fail, and counts one fault then.
        ensures chosen { IsErr result ↔ NextFails self.old.calls.failing self.old.calls.made }
        ensures counts { CountsCall self.old.calls self.new.calls n (IsErr result) }

        // What the volumes held at first stays, and the record has this sync more exactly where there was a write since
        // the last one.
        ensures kept { self.new ≡ record self.old { steps = self.new.steps; calls = self.new.calls } }
        ensures recorded { OnOk result (AddsSync self.old self.new n) }
        ensures unrecorded { OnErr result (self.new.steps ≡ self.old.steps) }
    {
        if self.fails(n) {
            return Err(VolumeFailed);
        }
        self.add_sync(n);
        Ok(())
    }
}

/// Writes to one of some volumes. A write that fails leaves a part.
fn write_in(
    alloc: Global,
    volumes: &mut [Items<u8>],
    n: usize,
    at: usize,
    bytes: &[u8],
    failed: bool,
) -> Result<(), OutOfMemory>
    requires { n < length volumes.old }
    ensures ok { OnOk result (volumes.new
        ≡ slice_set volumes.old n (contents_after (slice_index_or volumes.old n []) at bytes.now failed)) }
    ensures err { OnErr result (volumes.new ≡ volumes.old) }
{
    write_over(alloc, &mut volumes[n], at, bytes, failed)
}

/// Sixteen volumes of no bytes.
fn empty_volumes(alloc: Global) -> [Items<u8>; 16]
    ensures { result ≡ replicate 16 [] }
{
    array::from_fn(|_| Items::new(alloc))
}

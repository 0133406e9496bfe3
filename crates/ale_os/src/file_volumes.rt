//! The volumes of the system, one file each. They tell nothing of what they hold.

ghost use Rattle.std.specs.Prelude.{◌≡◌, ℕ, ◌<◌, slice_index};
ghost use Rattle.ale_volumes.specs.Faults.{CountsFault};

use crate::failure::{Cause, JournalFailure, Place};
use crate::journal_folder::JournalFolder;
use crate::open_volumes::OpenVolumes;
use crate::volume_file;
use ale_volumes::{VolumeEnd, VolumeFailed, Volumes};
use std::alloc::Global;
use std::fs::File;
use std::{io, rt};

/// Sixteen volumes in the files `vol00` to `vol15` of the folder `aleflow.journal`, which is in the current folder. It
/// tells nothing of what they hold.
///
/// The first call on any volume opens the folder and locks its file `lock`, until these volumes are dropped or the process
/// ends, however it does. Where another has the lock, this call and all later ones fail, and nothing is changed. The first
/// call on a volume opens its file, which then stays open. The folder and the files are made where they are not there yet,
/// for their owner alone, and a new file is an empty volume. A volume that is never used gets no file.
///
/// Each is a folder or a regular file by its own name, with no other name and with no link followed, and no standard stream
/// of this process; and a file of more than one byte begins with one of the two bytes that are given. Otherwise the call
/// fails, and not a byte of it is changed. No file has the descriptor of a standard stream.
#[derive(Drop)]
pub struct FileVolumes<'a, R: rt::Files<File = File>> {
    rt: &'a R,
    first_bytes: [u8; 2],
    // The folder, or why it was refused, from the first call on.
    folder: Option<Result<JournalFolder, JournalFailure>>,
    open: OpenVolumes<File>,
    faults: [u64; 16],
    failure: Option<JournalFailure>,
}

impl<'a, R: rt::Files<File = File>> FileVolumes<'a, R> {
    /// No file is open, and no call has failed yet. It takes no memory, and touches no file.
    pub fn new(rt: &'a R, alloc: Global, first_bytes: [u8; 2]) -> FileVolumes<'a, R>
        ensures { (n : ℕ) → n < 16 → ⟦<FileVolumes<'a, R> as Volumes>⟧.disk.faults result n ≡ 0 }
    {
        FileVolumes {
            rt,
            first_bytes,
            folder: None,
            open: OpenVolumes::none(alloc),
            faults: [0; 16],
            failure: None,
        }
    }

    /// How many calls on a volume have failed.
    pub fn faults(&self, n: u8) -> u64
        requires { n < 16 }
        ensures { result ≡ ⟦<FileVolumes<'a, R> as Volumes>⟧.disk.faults self.now n }
    {
        self.faults[usize::from(n)]
    }

    /// Why the first call failed that did, and on what. It is for people: no clause says that it is so.
    pub fn failure(&self) -> Option<JournalFailure> {
        self.failure
    }

    /// Counts a fault of a volume, and notes why, where it is the first.
    fn fault(&mut self, n: u8, failure: JournalFailure)
        requires { n < 16 }
        ensures { CountsFault (Unit {0}) (slice_index self.old.faults) (slice_index self.new.faults) n }
    {
        let _first = self.failure.get_or_insert(failure);
        let count = &mut self.faults[usize::from(n)];
        *count = count.saturating_add(1);
    }

    /// The file of a volume: the one that is open, or else opened.
    fn take_open(&mut self, n: u8) -> Result<File, JournalFailure>
        requires { n < 16 }
        ensures { self.new.faults ≡ self.old.faults }
    {
        if let Some(file) = self.open.take(n) {
            return Ok(file);
        }
        if self.open.make_room().is_err() {
            return Err(Cause::OutOfMemory.at(Place::Volume(n)));
        }
        let rt = self.rt;
        match self.folder.get_or_insert_with(|| JournalFolder::open(rt)) {
            Ok(folder) => folder.open_volume(rt, n, self.first_bytes),
            Err(failure) => Err(*failure),
        }
    }

    /// The length of a volume. It counts no fault.
    fn length_of(&mut self, n: u8) -> Result<u64, JournalFailure>
        requires { n < 16 }
        ensures { self.new.faults ≡ self.old.faults }
    {
        let mut file = self.take_open(n)?;
        let length = volume_file::length(&mut file);
        self.open.keep(n, file);
        on_volume(n, length)
    }

    /// Reads bytes of a volume. It counts no fault.
    fn read(&mut self, n: u8, at: u64, into: &mut [u8]) -> Result<(), JournalFailure>
        requires { n < 16 }
        ensures { self.new.faults ≡ self.old.faults }
    {
        let mut file = self.take_open(n)?;
        let read = volume_file::read_at(&mut file, at, into);
        self.open.keep(n, file);
        on_volume(n, read)
    }

    /// Writes bytes to a volume. It counts no fault, and fails by want of memory only before it writes.
    fn write(&mut self, n: u8, at: u64, bytes: &[u8]) -> Result<(), JournalFailure>
        requires { n < 16 }
        ensures { self.new.faults ≡ self.old.faults }
    {
        let mut file = self.take_open(n)?;
        let written = volume_file::write_at(&mut file, at, bytes);
        self.open.keep(n, file);
        on_volume(n, written)
    }

    /// Makes a volume durable. It counts no fault.
    fn make_durable(&mut self, n: u8) -> Result<(), JournalFailure>
        requires { n < 16 }
        ensures { self.new.faults ≡ self.old.faults }
    {
        let file = self.take_open(n)?;
        let synced = volume_file::sync(&file);
        self.open.keep(n, file);
        on_volume(n, synced)
    }
}

/// What came of a call on the open file of a volume. The system's want of memory is a failure as others are, since a part of
/// the call may have been done.
fn on_volume<T>(n: u8, ended: io::Result<T>) -> Result<T, JournalFailure> {
    match ended {
        Ok(done) => Ok(done),
        Err(error) => Err(Cause::System(error).at(Place::Volume(n))),
    }
}

impl<R: rt::Files<File = File>> Volumes for FileVolumes<'_, R> {
    ghost use Rattle.std.specs.Prelude.{[], slice_index};
    ghost use Rattle.ale_volumes.specs.Volume.{settled};

    // What files hold is told by no contract, since others may write them; how many calls on each failed is.
    ghost disk = { record {
      told = ⊥;
      volume = λ _ _. settled [];
      moment = λ _. 0;
      left_at = λ _ _ _ _. ⊥;
      faults = λ volumes n. slice_index volumes.faults n;
    } };

    ghost read_is_image = { λ told _ _. absurd told };

    ghost counts_now = { λ told _ _ _ _ _ _. absurd told };

    ghost only_now = { λ told _ _ _ _. absurd told };

    fn length(&mut self, n: u8) -> Result<u64, VolumeFailed> {
        match self.length_of(n) {
            Ok(length) => Ok(length),
            Err(failure) => {
                self.fault(n, failure);
                Err(VolumeFailed)
            }
        }
    }

    fn read_at(&mut self, n: u8, at: u64, into: &mut [u8]) -> Result<(), VolumeFailed> {
        match self.read(n, at, into) {
            Ok(()) => Ok(()),
            Err(failure) => {
                self.fault(n, failure);
                Err(VolumeFailed)
            }
        }
    }

    fn write_at(&mut self, n: u8, at: u64, bytes: &[u8]) -> Result<(), VolumeEnd> {
        match self.write(n, at, bytes) {
            Ok(()) => Ok(()),
            // Want of memory is no fault of a volume.
            Err(failure) if failure.is_memory() => Err(VolumeEnd::OutOfMemory),
            Err(failure) => {
                self.fault(n, failure);
                Err(VolumeEnd::Failed)
            }
        }
    }

    fn sync(&mut self, n: u8) -> Result<(), VolumeFailed> {
        match self.make_durable(n) {
            Ok(()) => Ok(()),
            Err(failure) => {
                self.fault(n, failure);
                Err(VolumeFailed)
            }
        }
    }
}

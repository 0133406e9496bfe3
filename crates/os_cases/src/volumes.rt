//! Volumes that are files of one folder.

ghost use Rattle.std.specs.Prelude.{◌<◌, IfOk};

use crate::call_end::{Broken, CallEnd};
use crate::outside::{Adapters, VolumeCall};
use crate::text::{line, told_line};
use ale_base::OutOfMemory;
use ale_os::FileVolumes;
use ale_volumes::{VolumeEnd, VolumeFailed, Volumes};
use case_form::{first_word, number_of, put_text};
use std::alloc::Global;
use std::fs::File;
use std::rt::Files;

/// Volumes that tell nothing, so that any bytes may be asked for, and that say how many calls on them have failed.
pub(crate) trait RealVolumes: Volumes {
    /// How many calls on a volume have failed.
    fn faults_of(&self, n: u8) -> u64
        requires { n < 16 };

    /// What is told of the first call that failed, if one did.
    fn told(&self, alloc: Global) -> Result<Vec<u8>, OutOfMemory>;

    /// Reads bytes of a volume from a place on.
    fn read_from(&mut self, n: u8, at: u64, into: &mut [u8]) -> Result<(), VolumeFailed>
        requires { n < 16 };

    /// Writes bytes to a volume from a place on.
    fn write_to(&mut self, n: u8, at: u64, bytes: &[u8]) -> Result<(), VolumeEnd>
        requires { n < 16 };
}

impl<R: Files<File = File>> RealVolumes for FileVolumes<'_, R> {
    fn faults_of(&self, n: u8) -> u64 {
        self.faults(n)
    }

    fn told(&self, alloc: Global) -> Result<Vec<u8>, OutOfMemory> {
        match self.failure() {
            Some(failure) => told_line(alloc, &failure),
            None => line(alloc, "nothing failed"),
        }
    }

    fn read_from(&mut self, n: u8, at: u64, into: &mut [u8]) -> Result<(), VolumeFailed> {
        self.read_at(n, at, into)
    }

    fn write_to(&mut self, n: u8, at: u64, bytes: &[u8]) -> Result<(), VolumeEnd> {
        self.write_at(n, at, bytes)
    }
}

/// `CALL VOLUME ..`: a call on the volume that the first word behind the item's own names.
pub(crate) fn on_volume<V: RealVolumes>(
    alloc: Global,
    volumes: &mut V,
    call: VolumeCall,
    rest: &[u8],
) -> Result<Vec<u8>, CallEnd> {
    let (volume, rest) = first_word(rest);
    let volume = volume_of(volume)?;
    match call {
        VolumeCall::Length => length(alloc, volumes, volume),
        VolumeCall::Write => write(alloc, volumes, volume, rest),
        VolumeCall::Read => read(alloc, volumes, volume, rest),
        VolumeCall::Sync => sync(alloc, volumes, volume),
        VolumeCall::Faults => Ok(told_line(alloc, &volumes.faults_of(volume))?),
    }
}

/// `length VOLUME`: how many bytes the volume has.
fn length<V: Volumes>(alloc: Global, volumes: &mut V, volume: u8) -> Result<Vec<u8>, CallEnd>
    requires { volume < 16 }
{
    match volumes.length(volume) {
        Ok(length) => Ok(told_line(alloc, &length)?),
        Err(_) => Ok(line(alloc, "failed")?),
    }
}

/// `write VOLUME AT TEXT`: the text is written to the volume from a place on.
fn write<V: RealVolumes>(
    alloc: Global,
    volumes: &mut V,
    volume: u8,
    rest: &[u8],
) -> Result<Vec<u8>, CallEnd>
    requires { volume < 16 }
{
    let (at, text) = first_word(rest);
    let at = number_of(at)?;
    let mut bytes = Vec::new(alloc);
    put_text(&mut bytes, text)?;
    match volumes.write_to(volume, u64::from(at), bytes.as_slice()) {
        Ok(()) => Ok(line(alloc, "written")?),
        Err(VolumeEnd::Failed) => Ok(line(alloc, "failed")?),
        Err(VolumeEnd::OutOfMemory) => Ok(line(alloc, "out of memory")?),
    }
}

/// `at VOLUME PLACE COUNT`: so many bytes of the volume are read from a place on.
fn read<V: RealVolumes>(
    alloc: Global,
    volumes: &mut V,
    volume: u8,
    rest: &[u8],
) -> Result<Vec<u8>, CallEnd>
    requires { volume < 16 }
{
    let (at, count) = first_word(rest);
    let at = number_of(at)?;
    let count = number_of(count)?;
    let mut into = vec![in alloc; 0u8; count as usize]?;
    match volumes.read_from(volume, u64::from(at), into.as_mut_slice()) {
        Ok(()) => {
            into.push(b'\n')?;
            Ok(into)
        }
        Err(_) => Ok(line(alloc, "failed")?),
    }
}

/// `sync VOLUME`: the volume is made durable.
fn sync<V: Volumes>(alloc: Global, volumes: &mut V, volume: u8) -> Result<Vec<u8>, CallEnd>
    requires { volume < 16 }
{
    match volumes.sync(volume) {
        Ok(()) => Ok(line(alloc, "synced")?),
        Err(_) => Ok(line(alloc, "failed")?),
    }
}

/// `reopen`: from here on the volumes are as another run of a program finds them.
pub(crate) fn reopen<F, V: Drop>(
    alloc: Global,
    adapters: &mut Adapters<F, V>,
) -> Result<Vec<u8>, CallEnd> {
    let Some(volumes) = adapters.later.take() else {
        return Err(Broken::Reopened.into());
    };
    adapters.volumes = volumes;
    Ok(Vec::new(alloc))
}

/// The volume that a word names.
fn volume_of(word: &[u8]) -> Result<u8, CallEnd>
    ensures { IfOk result (λ volume. volume < 16) }
{
    let volume = number_of(word)?;
    if volume < 16 {
        Ok(volume as u8)
    } else {
        Err(Broken::Volume.into())
    }
}

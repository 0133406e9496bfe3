//! The folder of the journals, which one run has at a time, and its files.

ghost use Rattle.std.specs.Prelude.{◌<◌};

use crate::failure::{Cause, JournalFailure, Place};
use std::fs::{DirBuilder, File, Metadata, OpenFile, OpenOptions, Permissions, TryLockError};
use std::io::{ErrorKind, Read, Seek, SeekFrom};
use std::os::fd::AsRawFd;
use std::os::unix::fs::{DirBuilderExt, MetadataExt, OpenOptionsExt, PermissionsExt};
use std::{fs, io, rt};

/// The folder of the files of all volumes, in the current folder.
const FOLDER: &str = "aleflow.journal";

/// The folder that it is in.
const PARENT: &str = ".";

/// The file of the folder that a run locks. It stays empty.
const LOCK: &str = "aleflow.journal/lock";

/// The files of the volumes, by their numbers. A name takes no memory.
const PATHS: [&str; 16] = [
    "aleflow.journal/vol00",
    "aleflow.journal/vol01",
    "aleflow.journal/vol02",
    "aleflow.journal/vol03",
    "aleflow.journal/vol04",
    "aleflow.journal/vol05",
    "aleflow.journal/vol06",
    "aleflow.journal/vol07",
    "aleflow.journal/vol08",
    "aleflow.journal/vol09",
    "aleflow.journal/vol10",
    "aleflow.journal/vol11",
    "aleflow.journal/vol12",
    "aleflow.journal/vol13",
    "aleflow.journal/vol14",
    "aleflow.journal/vol15",
];

/// Who may read and write a folder that a run makes: its owner, and nobody else.
const FOLDER_MODE: u32 = 0o700;

/// Who may read and write a file that a run makes: its owner, and nobody else.
const FILE_MODE: u32 = 0o600;

/// The permissions in the mode of a file.
const PERMISSIONS: u32 = 0o777;

/// The folder of the journals, open and locked by this run. The lock goes with this value, and with the process, however
/// that ends.
#[derive(Drop)]
pub(crate) struct JournalFolder {
    folder: File,
    lock: File,
}

impl JournalFolder {
    /// Opens and locks the folder, and makes it where it is not there. Where another run has it, nothing is changed.
    pub(crate) fn open<R: rt::Files<File = File>>(rt: &R) -> Result<JournalFolder, JournalFailure> {
        let folder = open_folder(rt).map_err(|cause| cause.at(Place::Folder))?;
        let lock = open_locked(rt).map_err(|cause| cause.at(Place::Lock))?;
        // A name outlives a crash once its folder is synced.
        sync_parent(rt).map_err(|cause| cause.at(Place::Current))?;
        Ok(JournalFolder { folder, lock })
    }

    /// Opens the file of volume `n`, and makes it where it is not there: a new file has no bytes. A file of more than one
    /// byte that begins with none of these is no volume, and is refused.
    pub(crate) fn open_volume<R: rt::Files<File = File>>(
        &self,
        rt: &R,
        n: u8,
        first_bytes: [u8; 2],
    ) -> Result<File, JournalFailure>
        requires { n < 16 }
    {
        self.check_names(rt)?;
        let file = match open_own_volume(rt, PATHS[usize::from(n)], first_bytes) {
            Ok(file) => file,
            Err(cause) => return Err(cause.at(Place::Volume(n))),
        };
        self.check_names(rt)?;
        // A run that was cut off may have made the file and not synced its name.
        match self.folder.sync_all() {
            Ok(()) => Ok(file),
            Err(error) => Err(Cause::System(error).at(Place::Folder)),
        }
    }

    /// Fails where the folder or the lock that this run has open is not what has the name.
    fn check_names<R: rt::Files<File = File>>(&self, rt: &R) -> Result<(), JournalFailure> {
        has_own_name(rt, &self.folder, FOLDER).map_err(|cause| cause.at(Place::Folder))?;
        has_own_name(rt, &self.lock, LOCK).map_err(|cause| cause.at(Place::Lock))
    }
}

/// Opens the folder of the journals, and makes it where it is not there.
fn open_folder<R: rt::Files<File = File>>(rt: &R) -> Result<File, Cause> {
    make_folder(rt)?;
    let named = fs::symlink_metadata(rt, FOLDER)?;
    if !named.is_dir() {
        return Err(Cause::of_kind(&named));
    }
    let folder = above_streams(fs::open(rt, FOLDER)?)?;
    has_own_name(rt, &folder, FOLDER)?;
    Ok(folder)
}

/// Makes the folder of the journals where nothing has its name.
fn make_folder<R: rt::Files>(rt: &R) -> Result<(), Cause> {
    match DirBuilder::new().mode(FOLDER_MODE).create(rt, FOLDER) {
        Ok(()) => widen(rt),
        Err(error) if error.kind() == ErrorKind::AlreadyExists => Ok(()),
        Err(error) => Err(error.into()),
    }
}

/// Gives its owner the new folder, where the caller's mask took that away: it can't be opened before.
fn widen<R: rt::Files>(rt: &R) -> Result<(), Cause> {
    let made = fs::symlink_metadata(rt, FOLDER)?;
    if made.is_dir() && made.mode() & PERMISSIONS != FOLDER_MODE {
        fs::set_permissions(rt, FOLDER, Permissions::from_mode(FOLDER_MODE))?;
    }
    Ok(())
}

/// Opens the file of the lock, and takes the lock.
fn open_locked<R: rt::Files<File = File>>(rt: &R) -> Result<File, Cause> {
    let lock = open_own(rt, LOCK)?;
    match lock.try_lock() {
        Ok(()) => {}
        Err(TryLockError::WouldBlock) => return Err(Cause::Locked),
        Err(TryLockError::Error(error)) => return Err(error.into()),
    }
    // The lock is that of the folder only while the file has the name.
    has_own_name(rt, &lock, LOCK)?;
    Ok(lock)
}

/// Opens the file of a volume. A file of more than one byte that begins with none of these is none.
fn open_own_volume<R: rt::Files<File = File>>(
    rt: &R,
    path: &str,
    first_bytes: [u8; 2],
) -> Result<File, Cause> {
    let mut file = open_own(rt, path)?;
    if is_foreign(&mut file, first_bytes)? {
        return Err(Cause::Foreign);
    }
    Ok(file)
}

/// Opens a file of the folder to be read and written, and makes it where it is not there. It is a regular file with one
/// name, which is no link, and no standard stream of this process.
fn open_own<R: rt::Files<File = File>>(rt: &R, path: &str) -> Result<File, Cause> {
    let (file, is_new) = open_or_make(rt, path)?;
    let file = above_streams(file)?;
    has_own_name(rt, &file, path)?;
    let found = file.metadata()?;
    if !found.is_file() {
        return Err(Cause::of_kind(&found));
    }
    if found.nlink() != 1 {
        return Err(Cause::ManyNames);
    }
    if is_stream(rt, &found) {
        return Err(Cause::Stream);
    }
    if is_new && found.mode() & PERMISSIONS != FILE_MODE {
        file.set_permissions(Permissions::from_mode(FILE_MODE))?;
    }
    Ok(file)
}

/// Opens a file of the folder, or makes it, and tells whether it is new. A link that has the name is refused; whether one
/// was put there in between, who calls this has to see.
fn open_or_make<R: rt::Files>(rt: &R, path: &str) -> Result<(R::File, bool), Cause> {
    match OpenOptions::new()
        .read(true)
        .write(true)
        .create_new(true)
        .mode(FILE_MODE)
        .open(rt, path)
    {
        Ok(file) => return Ok((file, true)),
        Err(error) if error.kind() == ErrorKind::AlreadyExists => {}
        Err(error) => return Err(error.into()),
    }
    let named = fs::symlink_metadata(rt, path)?;
    if !named.is_file() {
        return Err(Cause::of_kind(&named));
    }
    let file = OpenOptions::new().read(true).write(true).open(rt, path)?;
    Ok((file, false))
}

/// Fails where what has the name is not what is open, as where a link was followed to it.
fn has_own_name<R: rt::Files>(rt: &R, open: &File, path: &str) -> Result<(), Cause> {
    match fs::symlink_metadata(rt, path) {
        Ok(named) if is_same(&open.metadata()?, &named) => Ok(()),
        Ok(_) => Err(Cause::Replaced),
        Err(error) if error.kind() == ErrorKind::NotFound => Err(Cause::Replaced),
        Err(error) => Err(error.into()),
    }
}

/// Whether both are of one file.
fn is_same(one: &Metadata, other: &Metadata) -> bool {
    one.dev() == other.dev() && one.ino() == other.ino()
}

/// Whether a file is one that a standard stream of this process reads or writes.
fn is_stream<R: rt::Files>(rt: &R, found: &Metadata) -> bool {
    STREAMS.iter().any(|path| match fs::metadata(rt, *path) {
        Ok(stream) => is_same(found, &stream),
        // The stream is closed.
        Err(_) => false,
    })
}

/// The names by which the system tells what the standard streams of this process are.
const STREAMS: [&str; 3] = ["/dev/stdin", "/dev/stdout", "/dev/stderr"];

/// A file under a descriptor above those of the three standard streams: this one where it has one, else a duplicate. Where one of them was closed, what is meant
/// for it must not land in a journal.
fn above_streams(file: File) -> io::Result<File> {
    if file.as_raw_fd() > LAST_STREAM {
        Ok(file)
    } else {
        file.try_clone()
    }
}

/// The descriptor of standard error.
const LAST_STREAM: i32 = 2;

/// Whether a file has more than one byte, and the first is none of these.
fn is_foreign<F: Read + Seek>(file: &mut F, first_bytes: [u8; 2]) -> io::Result<bool> {
    if file.seek(SeekFrom::End(0))? <= 1 {
        return Ok(false);
    }
    file.seek(SeekFrom::Start(0))?;
    let mut first = [0u8];
    file.read_exact(&mut first)?;
    Ok(!first_bytes.contains(&first[0]))
}

/// Makes the name of the folder durable.
fn sync_parent<R: rt::Files>(rt: &R) -> Result<(), Cause> {
    fs::open(rt, PARENT)?.sync_all()?;
    Ok(())
}

//! The files of the system. They tell nothing of what they hold.

ghost use Rattle.std.specs.Prelude.{◌≡◌, ◌≢◌, [], ◌++◌, ◌+◌, ◌<◌, ◌≤◌, length, Err, IfOk, IfSome, OnOk, IsErrOf, IsTrue, IsFalse};
ghost use Rattle.std.specs.Io.{StartsWith};
ghost use Rattle.ale_base.specs.Faults.{Rose};

use crate::failure::{ReadCause, ReadFailure};
use crate::open_file::OpenFile;
use ale_io::{FileEnd, Files};
use std::alloc::Global;
use std::io::{ErrorKind, Read};
use std::{fs, io, rt};

/// The files of the current folder, or those that their paths name. It tells nothing of what they hold. The file of the
/// last piece stays open, so that the next piece of it is read on from there.
#[derive(Drop)]
pub struct DirFiles<'a, R: rt::Files> {
    rt: &'a R,
    alloc: Global,
    faults: u64,
    open: Option<OpenFile<R::File>>,
    failure: Option<ReadFailure>,
}

impl<'a, R: rt::Files> DirFiles<'a, R> {
    /// No read has failed yet.
    pub fn new(rt: &'a R, alloc: Global) -> DirFiles<'a, R>
        ensures { ⟦<DirFiles<'a, R> as Files>⟧.faults result ≡ 0 }
    {
        DirFiles {
            rt,
            alloc,
            faults: 0,
            open: None,
            failure: None,
        }
    }

    /// Why the system did not read the last file that it did not read; nothing where memory ran out for its name. It is for
    /// people: no clause says that it is so.
    pub fn failure(&self) -> Option<&ReadFailure> {
        self.failure.as_ref()
    }

    /// Appends the bytes of a file. After an `Err` some of them may have been appended.
    fn append(&mut self, name: &str, limit: usize, into: &mut Vec<u8>) -> Result<(), FileEnd>
        ensures kept { StartsWith into.new.items into.old.items }
        ensures within { OnOk result (length into.new.items ≤ length into.old.items + limit) }
        ensures no_name { name.now ≡ [] → IsErrOf result FileEnd.Failed }
        ensures faults { self.new.faults ≡ self.old.faults }
    {
        let file = self.open_named(name)?;
        match append_front(file, limit, into) {
            Ok(count) if count > limit => Err(FileEnd::TooLong),
            Ok(_) => Ok(()),
            Err(error) => Err(self.not_read(name, error)),
        }
    }

    /// The file of this name, opened.
    fn open_named(&mut self, name: &str) -> Result<R::File, FileEnd>
        ensures not_too_long { result ≢ Err FileEnd.TooLong }
        ensures no_name { name.now ≡ [] → IsErrOf result FileEnd.Failed }
        ensures faults { self.new.faults ≡ self.old.faults }
    {
        // The system says of an empty name what it says of a file that is not there.
        if name.is_empty() {
            self.note(name, ReadCause::NoName);
            return Err(FileEnd::Failed);
        }
        match fs::open(self.rt, name) {
            Ok(file) => Ok(file),
            Err(error) => {
                self.note(name, ReadCause::System(error));
                Err(end_of_opening(error.kind() == ErrorKind::NotFound))
            }
        }
    }

    /// Notes why the system did not read a file.
    fn note(&mut self, name: &str, cause: ReadCause)
        ensures faults { self.new.faults ≡ self.old.faults }
    {
        self.failure = match String::from_str(self.alloc, name) {
            Ok(name) => Some(ReadFailure { name, cause }),
            Err(_) => None,
        };
    }

    /// Notes why a file that was opened is not read, and tells how the read ends.
    fn not_read(&mut self, name: &str, error: io::Error) -> FileEnd
        ensures not_too_long { result ≢ FileEnd.TooLong }
        ensures faults { self.new.faults ≡ self.old.faults }
    {
        self.note(name, ReadCause::System(error));
        if error.kind() == ErrorKind::OutOfMemory {
            FileEnd::OutOfMemory
        } else {
            FileEnd::Failed
        }
    }

    /// Counts a fault.
    fn fault(&mut self)
        ensures counted { self.old.faults ≤ self.new.faults }
        ensures rose { Rose self.old.faults self.new.faults }
    {
        self.faults = self.faults.saturating_add(1);
    }

    /// Appends a piece of a file. After an `Err` some of its bytes may have been appended, and no file is open.
    fn append_piece(
        &mut self,
        name: &str,
        at: u64,
        most: usize,
        into: &mut Vec<u8>,
    ) -> Result<usize, FileEnd>
        ensures kept { StartsWith into.new.items into.old.items }
        ensures counted { IfOk result (λ count. (length into.new.items ≡ length into.old.items + count) × (count ≤ most)) }
        ensures not_too_long { result ≢ Err FileEnd.TooLong }
        ensures no_name { name.now ≡ [] → IsErrOf result FileEnd.Failed }
        ensures faults { self.new.faults ≡ self.old.faults }
    {
        let file = self.take_open(name, at)?;
        let (file, count) = match file.append_piece(at, most, into) {
            Ok(read) => read,
            Err(error) => return Err(self.not_read(name, error)),
        };
        // Behind the last piece nothing is left to be read.
        if count > 0 {
            self.open = Some(file);
        }
        Ok(count)
    }

    /// The file that is open, where it is that of this name, or else the file of this name, opened. A read from the
    /// first byte on begins anew.
    fn take_open(&mut self, name: &str, at: u64) -> Result<OpenFile<R::File>, FileEnd>
        ensures not_too_long { result ≢ Err FileEnd.TooLong }
        ensures no_name { name.now ≡ [] → IsErrOf result FileEnd.Failed }
        ensures faults { self.new.faults ≡ self.old.faults }
    {
        if let Some(file) = self.open.take() {
            if at > 0 && !name.is_empty() && file.has_name(name) {
                return Ok(file);
            }
        }
        let file = self.open_named(name)?;
        match OpenFile::at_start(self.alloc, name, file) {
            Ok(file) => Ok(file),
            Err(_) => Err(FileEnd::OutOfMemory),
        }
    }
}

impl<R: rt::Files> Files for DirFiles<'_, R> {
    ghost use Rattle.ale_io.specs.Told.{untold};

    ghost told = { λ _ _. untold };

    ghost faults = { λ folder. folder.faults };

    fn read_file(&mut self, name: &str, limit: usize, into: &mut Vec<u8>) -> Result<(), FileEnd> {
        let before = into.len();
        match self.append(name, limit, into) {
            Ok(()) => Ok(()),
            Err(end) => {
                into.truncate(before);
                self.fault();
                Err(end)
            }
        }
    }

    fn read_piece(
        &mut self,
        name: &str,
        at: u64,
        most: usize,
        into: &mut Vec<u8>,
    ) -> Result<usize, FileEnd> {
        let so_far = into.len();
        match self.append_piece(name, at, most, into) {
            Ok(count) => Ok(count),
            Err(end) => {
                self.fault();
                into.truncate(so_far);
                Err(end)
            }
        }
    }
}

/// Why a file that can't be opened is not read: there is none of this name, or the system failed.
fn end_of_opening(is_not_found: bool) -> FileEnd
    ensures missing { IsTrue is_not_found → result ≡ FileEnd.Missing }
    ensures failed { IsFalse is_not_found → result ≡ FileEnd.Failed }
{
    if is_not_found {
        FileEnd::Missing
    } else {
        FileEnd::Failed
    }
}

/// Appends what is left to read, but no more than one byte over the limit, and gives the number of bytes. After an `Err` some
/// of them may have been appended.
fn append_front<F: Read + Drop>(reader: F, limit: usize, into: &mut Vec<u8>) -> io::Result<usize>
    ensures kept { StartsWith into.new.items into.old.items }
    ensures counted { IfOk result (λ count. length into.new.items ≡ length into.old.items + count) }
    ensures read { IfOk result (λ count. count ≤ limit → IfSome (F.remaining reader) (λ left. into.new.items ≡ into.old.items ++ left)) }
    ensures too_long { IfOk result (λ count. limit < count → IfSome (F.remaining reader) (λ left. limit < length left)) }
{
    let mut head = reader.take((limit as u64).saturating_add(1));
    head.read_to_end(into)
}

//! A file of the system that is open, and where the next read of it begins.

ghost use Rattle.std.specs.Prelude.{◌≡◌, ◌++◌, ◌+◌, ◌≤◌, length, take, IfOk, IfSome};
ghost use Rattle.std.specs.Io.{StartsWith};

use ale_base::OutOfMemory;
use std::alloc::Global;
use std::io;
use std::io::{ErrorKind, Read, Seek, SeekFrom};

/// A file of the system that is open, and where the next read of it begins.
#[derive(Drop)]
pub(crate) struct OpenFile<F> {
    name: String,
    file: F,
    at: u64,
}

impl<F: Read + Seek + Drop> OpenFile<F> {
    /// The file of this name, of which nothing was read.
    pub(crate) fn at_start(alloc: Global, name: &str, file: F) -> Result<OpenFile<F>, OutOfMemory> {
        let name = String::from_str(alloc, name)?;
        Ok(OpenFile { name, file, at: 0 })
    }

    /// Whether it is the file of this name.
    pub(crate) fn has_name(&self, name: &str) -> bool {
        self.name.as_str() == name
    }

    /// Appends a piece of the file, and gives the file back with the number of bytes. After an `Err` some of them may have
    /// been appended, and the file is closed.
    pub(crate) fn append_piece(
        self,
        at: u64,
        most: usize,
        into: &mut Vec<u8>,
    ) -> io::Result<(OpenFile<F>, usize)>
        ensures kept { StartsWith into.new.items into.old.items }
        ensures counted { IfOk result (λ read. (length into.new.items ≡ length into.old.items + read.1) × (read.1 ≤ most)) }

        // A piece that goes on where the last one ended has the next bytes, where the file tells them.
        ensures read { at ≡ self.at → IfOk result (λ _. IfSome (F.remaining self.file) (λ left.
            into.new.items ≡ into.old.items ++ take most left)) }
    {
        let OpenFile {
            name,
            mut file,
            at: place,
        } = self;
        // A piece that goes on where the last one ended needs no seek.
        if place != at {
            file.seek(SeekFrom::Start(at))?;
        }
        let (file, count) = append_front(file, most, into)?;
        let at = at.saturating_add(count as u64);
        Ok((OpenFile { name, file, at }, count))
    }
}

/// Appends the next bytes of a file, at most so many, and gives the file back with their number. After an `Err` some of
/// them may have been appended.
fn append_front<F: Read + Drop>(file: F, most: usize, into: &mut Vec<u8>) -> io::Result<(F, usize)>
    ensures kept { StartsWith into.new.items into.old.items }
    ensures counted { IfOk result (λ read. (length into.new.items ≡ length into.old.items + read.1) × (read.1 ≤ most)) }
    ensures read { IfOk result (λ _. IfSome (F.remaining file) (λ left. into.new.items ≡ into.old.items ++ take most left)) }
{
    let mut head = file.take(most as u64);
    let count = head.read_to_end(into)?;
    if count > most {
        // More than was asked for is never read, which no contract says.
        return Err(io::Error::from(ErrorKind::InvalidData));
    }
    Ok((head.into_inner(), count))
}

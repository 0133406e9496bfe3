//! Why calls of the system failed, in words for standard error.

use std::fs::Metadata;
use std::{fmt, io};

/// What a call on the journals was made on.
#[derive(Clone, Copy)]
pub(crate) enum Place {
    /// The folder that the folder of the journals is in.
    Current,
    /// The folder of the journals.
    Folder,
    /// The file that a run locks.
    Lock,
    /// The file of the volume of this number, which is below 16.
    Volume(u8),
}

/// Why a call on the journals failed.
#[derive(Clone, Copy)]
pub(crate) enum Cause {
    /// The system failed.
    System(io::Error),
    /// Another run has the lock.
    Locked,
    /// A link has the name.
    Link,
    /// A folder has the name of a file.
    Folder,
    /// What has the name is no folder, or no regular file.
    OtherKind,
    /// The file has other names too.
    ManyNames,
    /// The file is a standard stream of this process.
    Stream,
    /// What has the name is not what was opened by it.
    Replaced,
    /// The file has bytes that no run has written.
    Foreign,
    /// A request for memory was refused.
    OutOfMemory,
}

impl From<io::Error> for Cause {
    fn from(error: io::Error) -> Cause {
        Cause::System(error)
    }
}

impl Cause {
    /// The cause where what has a name is not of the kind that is wanted.
    pub(crate) fn of_kind(found: &Metadata) -> Cause {
        if found.is_symlink() {
            Cause::Link
        } else if found.is_dir() {
            Cause::Folder
        } else {
            Cause::OtherKind
        }
    }

    /// This cause, at a place.
    pub(crate) fn at(self, place: Place) -> JournalFailure {
        JournalFailure { place, cause: self }
    }
}

/// Why a call on the journals failed, and what it was made on. Its text has no end of line.
#[derive(Clone, Copy)]
pub struct JournalFailure {
    place: Place,
    cause: Cause,
}

impl JournalFailure {
    /// Whether a request for memory was refused, before anything was changed.
    pub(crate) fn is_memory(&self) -> bool {
        matches!(self.cause, Cause::OutOfMemory)
    }
}

impl fmt::Display for Place {
    fn fmt<W: fmt::Write>(&self, f: &mut fmt::Formatter<W>) -> fmt::Result {
        match self {
            Place::Current => f.write_str("the current folder"),
            Place::Folder => f.write_str("aleflow.journal"),
            Place::Lock => f.write_str("aleflow.journal/lock"),
            Place::Volume(n) => write!(f, "aleflow.journal/vol{n:02}"),
        }
    }
}

impl fmt::Display for JournalFailure {
    fn fmt<W: fmt::Write>(&self, f: &mut fmt::Formatter<W>) -> fmt::Result {
        let place = self.place;
        match self.cause {
            Cause::System(error) => write!(f, "{place}: {error}"),
            Cause::Locked => f.write_str("another run has aleflow.journal"),
            Cause::Link => write!(f, "{place}: is a link"),
            Cause::Folder => write!(f, "{place}: is a folder"),
            Cause::OtherKind => write!(f, "{place}: is something else"),
            Cause::ManyNames => write!(f, "{place}: has other names too"),
            Cause::Stream => write!(f, "{place}: is a standard stream of this run"),
            Cause::Replaced => write!(f, "{place}: is not what was opened"),
            Cause::Foreign => write!(f, "{place}: is no journal"),
            Cause::OutOfMemory => write!(f, "{place}: out of memory"),
        }
    }
}

/// Why the system did not read a file, and its name. Its text has no end of line and no control characters.
#[derive(Drop)]
pub struct ReadFailure {
    pub(crate) name: String,
    pub(crate) cause: ReadCause,
}

/// Why the system did not read a file.
#[derive(Clone, Copy)]
pub(crate) enum ReadCause {
    /// The system failed.
    System(io::Error),
    /// The name of the file has no bytes.
    NoName,
}

impl fmt::Display for ReadFailure {
    fn fmt<W: fmt::Write>(&self, f: &mut fmt::Formatter<W>) -> fmt::Result {
        match self.cause {
            ReadCause::System(error) => {
                for letter in self.name.as_str().chars() {
                    write_letter(f, letter)?;
                }
                write!(f, ": {error}")
            }
            ReadCause::NoName => f.write_str("a file has an empty name"),
        }
    }
}

/// Writes a letter of a name: a control character by its number.
fn write_letter<W: fmt::Write>(f: &mut fmt::Formatter<W>, letter: char) -> fmt::Result {
    if letter.is_control() {
        write!(f, "\\x{:02X}", letter as u32)
    } else {
        write!(f, "{letter}")
    }
}

//! Files that are read whole, and in pieces.

ghost use Rattle.std.specs.Prelude.{◌≤◌};

use crate::call_end::{Broken, CallEnd};
use crate::paths::path_of;
use crate::text::{line, told_line, two_lines};
use ale_base::OutOfMemory;
use ale_io::{FileEnd, Files};
use ale_os::DirFiles;
use case_form::{first_word, number_of, put_text};
use std::alloc::Global;
use std::rt;

/// Files that tell why the last one was not read.
pub(crate) trait WhyUnread {
    /// What is told of the last file that was not read, if any was not.
    fn told(&self, alloc: Global) -> Result<Vec<u8>, OutOfMemory>;
}

impl<R: rt::Files> WhyUnread for DirFiles<'_, R> {
    fn told(&self, alloc: Global) -> Result<Vec<u8>, OutOfMemory> {
        match self.failure() {
            Some(failure) => told_line(alloc, failure),
            None => line(alloc, "nothing failed"),
        }
    }
}

/// `unread`: what the system said of the last file that it did not read.
pub(crate) fn why_unread<F: WhyUnread>(alloc: Global, files: &F) -> Result<Vec<u8>, CallEnd> {
    Ok(files.told(alloc)?)
}

/// What is there before a read appends to it.
const SO_FAR: &[u8] = b"so far ";

/// `read LIMIT PATH`: the file is read whole, behind what is there before. It tells how that ended and what is there then.
/// The path is a text, so that it may have any bytes.
pub(crate) fn read<F: Files>(
    alloc: Global,
    files: &mut F,
    rest: &[u8],
) -> Result<Vec<u8>, CallEnd> {
    let (limit, path) = first_word(rest);
    let limit = limit_of(limit)?;
    let mut name = Vec::new(alloc);
    put_text(&mut name, path)?;
    let path = path_of(name.as_slice())?;
    let mut into = Vec::from_slice(alloc, SO_FAR)?;
    match files.read_file(path, limit, &mut into) {
        Ok(()) => Ok(two_lines(alloc, "read", into.as_slice())?),
        Err(end) => Ok(two_lines(alloc, name_of(end), into.as_slice())?),
    }
}

/// A limit: a number, or `any` for the greatest that there is.
fn limit_of(word: &[u8]) -> Result<usize, CallEnd> {
    if word == b"any".as_slice() {
        return Ok(usize::MAX);
    }
    Ok(number_of(word)? as usize)
}

/// `piece AT MOST PATH`: a piece of the file is read, behind what is there before.
pub(crate) fn piece<F: Files>(
    alloc: Global,
    files: &mut F,
    rest: &[u8],
) -> Result<Vec<u8>, CallEnd> {
    let (at, rest) = first_word(rest);
    let (most, path) = first_word(rest);
    let at = number_of(at)?;
    let most = number_of(most)?;
    let path = path_of(path)?;
    if most == 0 {
        return Err(Broken::Piece.into());
    }
    read_piece(alloc, files, path, at, most)
}

/// A piece of a file, behind what is there before.
fn read_piece<F: Files>(
    alloc: Global,
    files: &mut F,
    path: &str,
    at: u32,
    most: u32,
) -> Result<Vec<u8>, CallEnd>
    requires { 1 ≤ most }
{
    let mut into = Vec::from_slice(alloc, SO_FAR)?;
    match files.read_piece(path, u64::from(at), most as usize, &mut into) {
        Ok(count) if into.len() == SO_FAR.len().saturating_add(count) => {
            Ok(two_lines(alloc, "read", into.as_slice())?)
        }
        Ok(_) => Ok(two_lines(alloc, "miscounted", into.as_slice())?),
        Err(end) => Ok(two_lines(alloc, name_of(end), into.as_slice())?),
    }
}

/// The name of an end, as cases have it.
fn name_of(end: FileEnd) -> &'static str {
    match end {
        FileEnd::Missing => "missing",
        FileEnd::TooLong => "too long",
        FileEnd::Failed => "failed",
        FileEnd::OutOfMemory => "out of memory",
    }
}

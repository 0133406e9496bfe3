//! The files that a case makes, removes and looks for.

use crate::call_end::{Broken, CallEnd};
use crate::text::line;
use case_form::{first_word, put_text};
use std::alloc::Global;
use std::io::ErrorKind;
use std::rt::Files;
use std::{fs, io, str};

/// `make PATH TEXT`: a file that holds this text.
pub(crate) fn make<R: Files>(rt: &R, alloc: Global, rest: &[u8]) -> Result<Vec<u8>, CallEnd> {
    let (path, text) = first_word(rest);
    let path = path_of(path)?;
    let mut bytes = Vec::new(alloc);
    put_text(&mut bytes, text)?;
    match fs::write(rt, path, bytes.as_slice()) {
        Ok(()) => Ok(line(alloc, "made")?),
        Err(_) => Ok(line(alloc, "failed")?),
    }
}

/// `remove PATH`: the file or link, or the folder with all that is in it. It is well if there is none.
pub(crate) fn remove<R: Files + AllocGlobal>(
    rt: &R,
    alloc: Global,
    rest: &[u8],
) -> Result<Vec<u8>, CallEnd> {
    let path = path_of(rest)?;
    match removed(rt, path) {
        Ok(()) => Ok(line(alloc, "gone")?),
        Err(_) => Ok(line(alloc, "failed")?),
    }
}

/// `there PATH`: whether there is a file or a folder of this path.
pub(crate) fn there<R: Files>(rt: &R, alloc: Global, rest: &[u8]) -> Result<Vec<u8>, CallEnd> {
    let path = path_of(rest)?;
    match fs::exists(rt, path) {
        Ok(true) => Ok(line(alloc, "yes")?),
        Ok(false) => Ok(line(alloc, "no")?),
        Err(_) => Ok(line(alloc, "failed")?),
    }
}

/// Removes a file or link, or a folder with all that is in it.
fn removed<R: Files + AllocGlobal>(rt: &R, path: &str) -> io::Result<()> {
    match fs::symlink_metadata(rt, path) {
        Ok(found) if found.is_dir() => fs::remove_dir_all(rt, path),
        Ok(_) => fs::remove_file(rt, path),
        Err(error) if error.kind() == ErrorKind::NotFound => Ok(()),
        Err(error) => Err(error),
    }
}

/// The path that a word spells.
pub(crate) fn path_of(word: &[u8]) -> Result<&str, CallEnd> {
    match str::from_utf8(word) {
        Ok(path) => Ok(path),
        Err(_) => Err(Broken::Path.into()),
    }
}

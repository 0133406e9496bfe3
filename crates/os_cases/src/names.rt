//! The folders and links that a case makes, and who may read what.

use crate::call_end::{Broken, CallEnd};
use crate::paths::path_of;
use crate::text::line;
use ale_base::OutOfMemory;
use case_form::first_word;
use std::alloc::Global;
use std::fs::Permissions;
use std::os::unix::fs::{MetadataExt, PermissionsExt, symlink};
use std::rt::Files;
use std::{fs, io};

/// `folder PATH`: an empty folder.
pub(crate) fn make_folder<R: Files>(
    rt: &R,
    alloc: Global,
    rest: &[u8],
) -> Result<Vec<u8>, CallEnd> {
    Ok(ended(alloc, fs::create_dir(rt, path_of(rest)?), "made")?)
}

/// `link TARGET PATH`: a symbolic link that leads to the target.
pub(crate) fn link<R: Files>(rt: &R, alloc: Global, rest: &[u8]) -> Result<Vec<u8>, CallEnd> {
    let (target, path) = first_word(rest);
    Ok(ended(
        alloc,
        symlink(rt, path_of(target)?, path_of(path)?),
        "linked",
    )?)
}

/// `move PATH TO`: the file or folder gets another name.
pub(crate) fn rename<R: Files>(rt: &R, alloc: Global, rest: &[u8]) -> Result<Vec<u8>, CallEnd> {
    let (path, to) = first_word(rest);
    Ok(ended(alloc, fs::rename(rt, path_of(path)?, path_of(to)?), "moved")?)
}

/// `name FILE PATH`: one more name of a file.
pub(crate) fn hard_link<R: Files>(rt: &R, alloc: Global, rest: &[u8]) -> Result<Vec<u8>, CallEnd> {
    let (file, path) = first_word(rest);
    Ok(ended(
        alloc,
        fs::hard_link(rt, path_of(file)?, path_of(path)?),
        "named",
    )?)
}

/// `allow MODE PATH`: who may read, write and enter, in octal digits.
pub(crate) fn allow<R: Files>(rt: &R, alloc: Global, rest: &[u8]) -> Result<Vec<u8>, CallEnd> {
    let (mode, path) = first_word(rest);
    let Ok(mode) = u32::from_str_radix(path_of(mode)?, 8) else {
        return Err(Broken::Form.into());
    };
    let allowed = fs::set_permissions(rt, path_of(path)?, Permissions::from_mode(mode));
    Ok(ended(alloc, allowed, "allowed")?)
}

/// `mode PATH`: who may read, write and enter, in octal digits.
pub(crate) fn mode<R: Files>(rt: &R, alloc: Global, rest: &[u8]) -> Result<Vec<u8>, CallEnd> {
    match fs::symlink_metadata(rt, path_of(rest)?) {
        Ok(found) => {
            let text = format!(in alloc; "{:o}\n", found.mode() & 0o777)?;
            Ok(Vec::from_slice(alloc, text.as_bytes())?)
        }
        Err(_) => Ok(line(alloc, "failed")?),
    }
}

/// What is told of a call that may have failed.
fn ended(alloc: Global, ended: io::Result<()>, done: &str) -> Result<Vec<u8>, OutOfMemory> {
    match ended {
        Ok(()) => line(alloc, done),
        Err(_) => line(alloc, "failed"),
    }
}

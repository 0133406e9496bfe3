//! Disks as cases give them.

use crate::words::{numbers, plain, volume_word};
use ale_base::{Items, OutOfMemory};
use ale_volumes::MemoryVolumes;
use case_form::{Item, LineEnd, Rule, first_word};
use std::alloc::Global;
use std::array;

const NO_SUCH_LINE: Rule = Rule("a line of a disk begins with volume or failing");

/// What the lines of a disk give.
#[derive(Drop)]
struct Given {
    contents: [Items<u8>; 16],
    /// The numbers of the calls that are to fail.
    failing: Items<u64>,
}

/// The disk that an item's block gives: what its volumes hold, and which calls fail.
pub(crate) fn disk_of(alloc: Global, item: &Item) -> Result<MemoryVolumes, LineEnd> {
    let mut given = Given {
        contents: array::from_fn(|_| Items::new(alloc)),
        failing: Items::new(alloc),
    };
    for line in &item.block {
        read_line(alloc, &mut given, line.text.as_slice())?;
    }
    Ok(made(alloc, given)?)
}

/// Reads `volume N TEXT` or `failing K ..`.
fn read_line(alloc: Global, given: &mut Given, line: &[u8]) -> Result<(), LineEnd> {
    let (word, rest) = first_word(line);
    if word == b"volume".as_slice() {
        let (n, text) = volume_word(rest)?;
        given.contents[usize::from(n)] = Items::from_vec(plain(alloc, text)?);
    } else if word == b"failing".as_slice() {
        given.failing = Items::from_vec(numbers(alloc, rest)?);
    } else {
        return Err(NO_SUCH_LINE.into());
    }
    Ok(())
}

/// The disk of what was given.
fn made(alloc: Global, given: Given) -> Result<MemoryVolumes, OutOfMemory> {
    let Given { contents, failing } = given;
    MemoryVolumes::with_failures(alloc, contents, failing)
}

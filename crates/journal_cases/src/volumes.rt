//! Items that call one volume.

ghost use Rattle.std.specs.Prelude.{◌<◌};

use crate::words::{number_word, plain, put_shown};
use ale_base::OutOfMemory;
use ale_volumes::{MemoryVolumes, Volumes};
use case_form::{LineEnd, Rule, Text};
use std::alloc::Global;

const PAST_THE_END: Rule = Rule("a place is no further than the end of the volume");

/// `write N AT TEXT`: `ok`, or why it failed.
pub(crate) fn write(
    alloc: Global,
    vols: &mut MemoryVolumes,
    n: u8,
    rest: &[u8],
    text: &mut Text,
) -> Result<(), LineEnd>
    requires { n < 16 }
{
    let (at, rest) = number_word(rest)?;
    let bytes = plain(alloc, rest)?;
    if u64::from(at) > vols.contents(n).len() as u64 {
        return Err(PAST_THE_END.into());
    }
    match vols.write_at(n, u64::from(at), bytes.as_slice()) {
        Ok(()) => Ok(text.put_line(b"ok")?),
        Err(end) => put_shown(alloc, text, &end),
    }
}

/// `sync N`: `ok`, or why it failed.
pub(crate) fn sync(
    alloc: Global,
    vols: &mut MemoryVolumes,
    n: u8,
    text: &mut Text,
) -> Result<(), LineEnd>
    requires { n < 16 }
{
    match vols.sync(n) {
        Ok(()) => Ok(text.put_line(b"ok")?),
        Err(fault) => put_shown(alloc, text, &fault),
    }
}

/// `length N`: how many bytes the volume has, or why that is not known.
pub(crate) fn length(
    alloc: Global,
    vols: &mut MemoryVolumes,
    n: u8,
    text: &mut Text,
) -> Result<(), LineEnd>
    requires { n < 16 }
{
    match vols.length(n) {
        Ok(length) => Ok(put_count(text, length)?),
        Err(fault) => put_shown(alloc, text, &fault),
    }
}

/// `read N AT COUNT`: so many bytes from a place on, or why they are not read.
pub(crate) fn read(
    alloc: Global,
    vols: &mut MemoryVolumes,
    n: u8,
    rest: &[u8],
    text: &mut Text,
) -> Result<(), LineEnd>
    requires { n < 16 }
{
    let (at, rest) = number_word(rest)?;
    let (count, _) = number_word(rest)?;
    if u64::from(at) + u64::from(count) > vols.contents(n).len() as u64 {
        return Err(PAST_THE_END.into());
    }
    let mut bytes = vec![in alloc; 0; count as usize]?;
    match vols.read_at(n, u64::from(at), bytes.as_mut_slice()) {
        Ok(()) => Ok(text.put_line(bytes.as_slice())?),
        Err(fault) => put_shown(alloc, text, &fault),
    }
}

/// Puts a line of a number.
pub(crate) fn put_count(text: &mut Text, number: u64) -> Result<(), OutOfMemory> {
    text.put_number(number)?;
    text.end_line()
}

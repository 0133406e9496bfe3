//! Items on entries, and on journals of them.

ghost use Rattle.std.specs.Prelude.{◌<◌};
ghost use Rattle.unit_codec.specs.Condition.{IsWritableEntry};

use crate::appends::put_gate;
use crate::told::put_entry;
use crate::words::{plain, put_shown};
use ale_volumes::MemoryVolumes;
use case_form::{LineEnd, Text};
use std::alloc::Global;
use unit_codec::{Entry, read_entry};
use unit_journal::open;

/// `entry TEXT`: the entry that the bytes spell, or why they spell none.
pub(crate) fn entry(alloc: Global, rest: &[u8], text: &mut Text) -> Result<(), LineEnd> {
    let bytes = plain(alloc, rest)?;
    match read_entry(alloc, bytes.as_slice()) {
        Ok(entry) => Ok(put_entry(text, &entry)?),
        Err(fault) => put_shown(alloc, text, &fault),
    }
}

/// `log N`: opens the journal of entries: each entry of its log, or why there is none.
pub(crate) fn log(
    alloc: Global,
    vols: &mut MemoryVolumes,
    n: u8,
    text: &mut Text,
) -> Result<(), LineEnd>
    requires { n < 16 }
{
    match open(alloc, vols, n) {
        Ok((_, entries)) => {
            for entry in &entries {
                put_entry(text, entry)?;
            }
            Ok(())
        }
        Err(fault) => put_shown(alloc, text, &fault),
    }
}

/// `enters N TEXT`: opens the journal of entries and appends the entry that the bytes spell: the place of the last gate
/// then, or why it was not appended.
pub(crate) fn enters(
    alloc: Global,
    vols: &mut MemoryVolumes,
    n: u8,
    rest: &[u8],
    text: &mut Text,
) -> Result<(), LineEnd>
    requires { n < 16 }
{
    let bytes = plain(alloc, rest)?;
    match read_entry(alloc, bytes.as_slice()) {
        Ok(entry) => append(alloc, vols, n, &entry, text),
        Err(fault) => put_shown(alloc, text, &fault),
    }
}

/// Opens the journal of entries and appends one.
fn append(
    alloc: Global,
    vols: &mut MemoryVolumes,
    n: u8,
    entry: &Entry,
    text: &mut Text,
) -> Result<(), LineEnd>
    requires number { n < 16 }
    requires entry { IsWritableEntry entry.now }
{
    match open(alloc, vols, n) {
        Ok((mut journal, _)) => match journal.append(vols, entry.moment, &entry.what) {
            Ok(()) => Ok(put_gate(text, journal.gate())?),
            Err(fault) => put_shown(alloc, text, &fault),
        },
        Err(fault) => put_shown(alloc, text, &fault),
    }
}

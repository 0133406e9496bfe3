//! The bodies of a log as entries.

ghost use Rattle.std.specs.Prelude.{List, ℕ};
ghost use Rattle.unit_journal.specs.steps.Entries.{Reads};

use crate::LogFault;
use ale_base::Items;
use std::alloc::Global;
use unit_codec::{CodecFault, Entry, read_entry};

/// The entries that the bodies spell. `Unread` names the first body that spells none, counted from 1.
pub(crate) fn read_entries(alloc: Global, bodies: &[Items<u8>]) -> Result<Items<Entry>, LogFault>
    ensures { Reads bodies.now result }
{
    let mut entries = Items::new(alloc);
    for body in bodies {
        match read_entry(alloc, body.as_slice()) {
            Ok(entry) => entries.push(entry)?,
            Err(CodecFault::Bad(_)) => return Err(LogFault::Unread(entries.len() as u64 + 1)),
            Err(CodecFault::OutOfMemory) => return Err(LogFault::OutOfMemory),
        }
    }
    Ok(entries)
}

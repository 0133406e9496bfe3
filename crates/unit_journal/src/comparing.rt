//! The comparison of the entries that a volume gave with those that are kept of a log.

ghost use Rattle.std.specs.Prelude.{◌≡◌, ◌↔◌, length, IfOk, IsTrue};
ghost use Rattle.std.specs.Option.{option_copied};
ghost use Rattle.unit_codec.specs.Condition.{IsWritable, IsWritableEntry};
ghost use Rattle.unit_codec.specs.Entries.{entry_with};
ghost use Rattle.unit_journal.specs.Log.{AreEntries};
ghost use Rattle.unit_journal.specs.OnDisk.{entries_of, MayBeLeft};
ghost use Rattle.unit_journal.specs.steps.Compared.{Shares, Finds};

use crate::LookFault;
use ale_base::OutOfMemory;
use std::alloc::Global;
use unit_codec::{Entry, write_entry};
use unit_core::Record;

/// Whether the entries that a volume gave are those of a log and of the record behind it, or those of the log alone. `Changed`
/// names the first that is neither.
pub(crate) fn is_found(
    alloc: Global,
    found: &[Entry],
    moments: &[Option<u64>],
    log: &[Record],
    moment: Option<u64>,
    rest: Option<&Record>,
) -> Result<bool, LookFault>
    requires found { AreEntries found.now }
    requires each { length moments.now ≡ length log.now }
    requires kept { AreEntries (entries_of moments.now log.now) }
    requires rest { MayBeLeft (entries_of moments.now log.now) moment (option_copied rest) }
    ensures { Finds found.now (entries_of moments.now log.now) moment (option_copied rest.entry) result }
{
    let shared = shared(alloc, found, moments, log)?;
    if shared < log.len() {
        return Err(LookFault::Changed(shared as u64 + 1));
    }
    match (found.get(shared), rest) {
        (None, _) => Ok(false),
        (Some(_), None) => Err(LookFault::Changed(shared as u64 + 1)),
        (Some(entry), Some(next)) => {
            if !is_entry(alloc, entry, moment, next)? {
                Err(LookFault::Changed(shared as u64 + 1))
            } else if shared + 1 < found.len() {
                Err(LookFault::Changed(shared as u64 + 2))
            } else {
                Ok(true)
            }
        }
    }
}

/// How many entries at the front are the same.
fn shared(
    alloc: Global,
    found: &[Entry],
    moments: &[Option<u64>],
    log: &[Record],
) -> Result<usize, OutOfMemory>
    requires found { AreEntries found.now }
    requires each { length moments.now ≡ length log.now }
    requires kept { AreEntries (entries_of moments.now log.now) }
    ensures { IfOk result (λ count. Shares found.now (entries_of moments.now log.now) count) }
{
    let mut count = 0;
    while count < found.len() && count < log.len() {
        let same = is_entry(alloc, &found[count], moments[count], &log[count])?;
        if !same {
            return Ok(count);
        }
        count += 1;
    }
    Ok(count)
}

/// Whether an entry is that of this record with this moment. Each entry has one spelling.
fn is_entry(
    alloc: Global,
    entry: &Entry,
    moment: Option<u64>,
    what: &Record,
) -> Result<bool, OutOfMemory>
    requires entry { IsWritableEntry entry.now }
    requires what { IsWritable what.now }
    ensures { IfOk result (λ same. IsTrue same ↔ (entry.now ≡ entry_with moment what.now)) }
{
    let one = write_entry(alloc, entry.moment, &entry.what)?;
    let other = write_entry(alloc, moment, what)?;
    Ok(one.as_slice() == other.as_slice())
}

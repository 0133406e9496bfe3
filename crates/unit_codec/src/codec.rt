//! Records and entries as bytes, in both directions.

ghost use Rattle.std.specs.Prelude.{◌≡◌, ◌≢◌, ◌-◌, ◌≤◌, length, IfOk, OnOk, Ok, Err, MatchResult};
ghost use Rattle.unit_core.specs.declared.records.Record.{Record};
ghost use Rattle.unit_codec.specs.declared.entry.Entry.{Entry};
ghost use Rattle.unit_codec.specs.Condition.{IsWritable, IsWritableEntry};
ghost use Rattle.unit_codec.specs.Records.{HasSpelling, record_spelling};
ghost use Rattle.unit_codec.specs.Reading.{IsWithin, fault_in};
ghost use Rattle.unit_codec.specs.Entries.{EntryHasSpelling, entry_with, entry_spelling, record_read_as, entry_read_as};

use crate::fault::FieldFault;
use crate::reading::{take_entry, take_record};
use crate::unread::Unread;
use crate::writing::{put_entry, put_record};
use crate::{CodecFault, Entry};
use ale_base::OutOfMemory;
use std::alloc::Global;
use unit_core::Record;

/// The record that the bytes spell, all of them.
///
/// `Bad` comes exactly where they spell none. It names the place of the first field that does not follow its rule, or the
/// record's end where bytes follow it.
pub fn read_record(alloc: Global, bytes: &[u8]) -> Result<Record, CodecFault>
    // What is read is spelled so.
    ensures found { IfOk result (λ what. HasSpelling what × (bytes.now ≡ record_spelling what)) }
    ensures writable { IfOk result (λ what. IsWritable what) }
    // What is spelled so is read, unless memory runs out.
    ensures only { (what : Record) → HasSpelling what → bytes.now ≡ record_spelling what
        → result ≢ Err CodecFault.OutOfMemory → result ≡ Ok what }
    // Which field is the first that does not follow its rule.
    ensures first_fault { result ≢ Err CodecFault.OutOfMemory → result ≡ record_read_as bytes.now }
{
    record_of(alloc, bytes)
}

fn record_of(alloc: Global, bytes: &[u8]) -> Result<Record, CodecFault>
    ensures { result ≢ Err CodecFault.OutOfMemory → result ≡ record_read_as bytes.now }
{
    let mut from = Unread::new(bytes);
    let what = match take_record(alloc, &mut from) {
        Ok(what) => what,
        Err(fault) => return Err(fault_in(bytes, fault)),
    };
    all_is_read(bytes, from.left())?;
    Ok(what)
}

/// The one spelling of a record, whose fields follow their rules.
pub fn write_record(alloc: Global, what: &Record) -> Result<Vec<u8>, OutOfMemory>
    requires { IsWritable what.now }
    ensures spelled { IfOk result (λ bytes. bytes.items ≡ record_spelling what.now) }
    ensures has_spelling { OnOk result (HasSpelling what.now) }
{
    let mut bytes = Vec::new(alloc);
    put_record(&mut bytes, what)?;
    Ok(bytes)
}

/// The entry that the bytes spell, all of them: a record, or the byte 0x13, a moment and a record.
///
/// `Bad` comes exactly where they spell none, with a place as of `read_record`, counted from the entry's first byte.
pub fn read_entry(alloc: Global, bytes: &[u8]) -> Result<Entry, CodecFault>
    ensures found { IfOk result (λ entry. EntryHasSpelling entry × (bytes.now ≡ entry_spelling entry)) }
    ensures writable { IfOk result (λ entry. IsWritableEntry entry) }
    ensures only { (entry : Entry) → EntryHasSpelling entry → bytes.now ≡ entry_spelling entry
        → result ≢ Err CodecFault.OutOfMemory → result ≡ Ok entry }
    ensures first_fault { result ≢ Err CodecFault.OutOfMemory → result ≡ entry_read_as bytes.now }
{
    entry_of(alloc, bytes)
}

fn entry_of(alloc: Global, bytes: &[u8]) -> Result<Entry, CodecFault>
    ensures { result ≢ Err CodecFault.OutOfMemory → result ≡ entry_read_as bytes.now }
{
    let mut from = Unread::new(bytes);
    let entry = match take_entry(alloc, &mut from) {
        Ok(entry) => entry,
        Err(fault) => return Err(fault_in(bytes, fault)),
    };
    all_is_read(bytes, from.left())?;
    Ok(entry)
}

/// The one spelling of the entry of a record, whose fields follow their rules, with this moment or without one.
pub fn write_entry(
    alloc: Global,
    moment: Option<u64>,
    what: &Record,
) -> Result<Vec<u8>, OutOfMemory>
    requires { IsWritable what.now }
    ensures spelled { IfOk result (λ bytes. bytes.items ≡ entry_spelling (entry_with moment what.now)) }
    ensures has_spelling { OnOk result (EntryHasSpelling (entry_with moment what.now)) }
{
    let mut bytes = Vec::new(alloc);
    put_entry(&mut bytes, moment, what)?;
    Ok(bytes)
}

/// That none of the bytes is left.
fn all_is_read(bytes: &[u8], left: usize) -> Result<(), CodecFault>
    requires { left ≤ length bytes.now }
    ensures { MatchResult result (λ _. left ≡ 0) (λ fault. (left ≢ 0) × (fault ≡ CodecFault.Bad (length bytes.now - left))) }
{
    if left != 0 {
        return Err(bad(bytes, left));
    }
    Ok(())
}

/// A field's fault in these bytes.
fn fault_in(bytes: &[u8], fault: FieldFault) -> CodecFault
    requires { IsWithin (length bytes.now) fault }
    ensures { result ≡ fault_in (length bytes.now) fault }
{
    match fault {
        FieldFault::Bad(left) => bad(bytes, left),
        FieldFault::OutOfMemory => CodecFault::OutOfMemory,
    }
}

/// The fault at the place behind which so many of the bytes are left.
fn bad(bytes: &[u8], left: usize) -> CodecFault
    requires { left ≤ length bytes.now }
    ensures { result ≡ CodecFault.Bad (length bytes.now - left) }
{
    CodecFault::Bad((bytes.len() - left) as u64)
}

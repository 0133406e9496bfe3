//! A writer stores totals, tells a reader of them, and the reader reads.

use crate::asked::Stored;
use ale_base::OutOfMemory;
use live_monitor::{Totals, start};
use std::alloc::Global;
use std::sync::Wait;

/// What a reader is told and reads once totals were stored behind others.
pub(crate) fn told<R: Wait>(rt: &R, alloc: Global, stored: Stored) -> Result<Vec<u8>, OutOfMemory> {
    let (mut writer, mut reader) = start(alloc, stored.first)?;
    writer.store(rt, stored.then);
    let told = writer.tell(rt, &mut reader)?;
    let read = reader.read(rt);
    let mut text = Vec::new(alloc);
    put_totals(alloc, &mut text, "told", told)?;
    put_totals(alloc, &mut text, "read", read)?;
    Ok(text)
}

/// Appends a line of totals.
pub(crate) fn put_totals(
    alloc: Global,
    text: &mut Vec<u8>,
    what: &str,
    totals: Totals,
) -> Result<(), OutOfMemory> {
    let Totals {
        committed,
        accepted,
        executed,
    } = totals;
    let line = format!(in alloc; "{what} {committed} {accepted} {executed}\n")?;
    text.extend_from_slice(line.as_bytes())?;
    Ok(())
}

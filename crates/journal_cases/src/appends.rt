//! Items that open journals and append to them.

ghost use Rattle.std.specs.Prelude.{◌<◌, List, ℕ};
ghost use Rattle.byte_journal.specs.Settled.{IsSettled};

use crate::words::{plain, put_shown};
use ale_base::{Items, OutOfMemory};
use ale_volumes::{MemoryVolumes, Volumes};
use byte_journal::{Journal, open};
use case_form::{LineEnd, Rule, Text};
use std::alloc::Global;

const NO_BODY: Rule = Rule("a body has a byte at least");

/// The most bytes of a body that is shown whole.
const SHOWN: usize = 64;

/// `open N`: the place of the last gate and the bodies of the log, or why there is none.
pub(crate) fn open_one(
    alloc: Global,
    vols: &mut MemoryVolumes,
    n: u8,
    text: &mut Text,
) -> Result<(), LineEnd>
    requires { n < 16 }
{
    match open(alloc, vols, n) {
        Ok((journal, log)) => Ok(put_log(text, journal.gate, &log)?),
        Err(fault) => put_shown(alloc, text, &fault),
    }
}

/// Puts the place of the last gate, and each body, the longer ones by their lengths.
fn put_log(text: &mut Text, gate: u64, log: &Items<Items<u8>>) -> Result<(), OutOfMemory> {
    put_gate(text, gate)?;
    for body in log {
        if body.len() > SHOWN {
            text.put(b"a body of ")?;
            text.put_number(body.len() as u64)?;
            text.end_line()?;
        } else {
            text.put_line(body.as_slice())?;
        }
    }
    Ok(())
}

/// Puts the place of the last gate.
pub(crate) fn put_gate(text: &mut Text, gate: u64) -> Result<(), OutOfMemory> {
    text.put(b"gate at ")?;
    text.put_number(gate)?;
    text.end_line()
}

/// `appends N BODY ..`: opens a journal and appends these bodies, until one fails: of each the place of the last gate
/// then, or why it failed.
pub(crate) fn appends(
    alloc: Global,
    vols: &mut MemoryVolumes,
    n: u8,
    rest: &[u8],
    text: &mut Text,
) -> Result<(), LineEnd>
    requires { n < 16 }
{
    let mut bodies = Vec::new(alloc);
    for word in rest.split(|byte| *byte == b' ') {
        bodies.push(plain(alloc, word)?)?;
    }
    match open(alloc, vols, n) {
        Ok((mut journal, _)) => append_all(alloc, vols, &mut journal, &bodies, text),
        Err(fault) => put_shown(alloc, text, &fault),
    }
}

/// Appends bodies to a journal until one fails.
fn append_all<V: Volumes>(
    alloc: Global,
    vols: &mut V,
    journal: &mut Journal,
    bodies: &[Vec<u8>],
    text: &mut Text,
) -> Result<(), LineEnd>
    requires { V.disk.told → (log : List (List ℕ)) × IsSettled V.disk vols.old journal.old log }
{
    'bodies: for body in bodies {
        if body.is_empty() {
            return Err(NO_BODY.into());
        }
        match journal.append(vols, body.as_slice()) {
            Ok(()) => put_gate(text, journal.gate)?,
            Err(fault) => return put_shown(alloc, text, &fault),
        }
    }
    Ok(())
}

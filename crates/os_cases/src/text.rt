//! What is told of a call.

use ale_base::OutOfMemory;
use std::alloc::Global;
use std::fmt::Display;

/// A line of a text.
pub(crate) fn line(alloc: Global, text: &str) -> Result<Vec<u8>, OutOfMemory> {
    let mut line = Vec::from_slice(alloc, text.as_bytes())?;
    line.push(b'\n')?;
    Ok(line)
}

/// What something is shown as, in a line of its own.
pub(crate) fn told_line<D: Display>(alloc: Global, shown: &D) -> Result<Vec<u8>, OutOfMemory> {
    let text = format!(in alloc; "{shown}\n")?;
    Ok(Vec::from_slice(alloc, text.as_bytes())?)
}

/// Two lines: how a call ended, and bytes.
pub(crate) fn two_lines(alloc: Global, how: &str, bytes: &[u8]) -> Result<Vec<u8>, OutOfMemory> {
    let mut told = line(alloc, how)?;
    told.extend_from_slice(bytes)?;
    told.push(b'\n')?;
    Ok(told)
}

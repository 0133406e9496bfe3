//! The lines of a script, one after another.

ghost use Rattle.std.specs.Prelude.{◌≡◌, ◌≢◌, ◌≤◌, ◌<◌, ◌∷◌, [], length, Ok, Err, OnOk, IfOk, IfErr, IfSome, IfNone};
ghost use Rattle.std.specs.List.{list_all};
ghost use Rattle.ale_base.specs.Lines.{lines_of};
ghost use Rattle.script_text.specs.declared.fault.ScriptFault.{ScriptFault};
ghost use Rattle.script_text.specs.Words.{is_gap, words_of};
ghost use Rattle.script_text.specs.Forms.{form_of};
ghost use Rattle.script_text.specs.Script.{is_comment, is_skipped, line_read, both, script_of};

use crate::making::form_of;
use crate::words::{is_gap, words_of};
use crate::{Command, Form, ScriptFault};
use ale_base::{Items, OutOfMemory, split_line, without_return};
use std::alloc::Global;

/// The greatest length of a script, in bytes.
pub const MAX_BYTES: usize = 16_777_216;

/// The greatest length of a line, in bytes, its end not counted.
pub(crate) const MAX_LINE: usize = 4_096;

/// The most lines of a script.
pub(crate) const MAX_LINES: u32 = 100_000;

/// The commands that the bytes of a script say, in order, or the fault of the first line that is not read: `Line` where it
/// is no command, and `TooMany` at line 100,001, where that is a command or is skipped. Lines end in LF or CR LF, and the
/// last one may lack its end. Lines of no word and lines that begin with `#` are skipped and counted. A line of over 4,096
/// bytes is no command, whatever it holds.
pub fn read(alloc: Global, bytes: &[u8]) -> Result<Items<Command>, ScriptFault>
    ensures commands { IfOk result (λ commands. script_of bytes.now ≡ Ok commands) }
    ensures fault { (fault : ScriptFault) → result ≡ Err fault → fault ≢ ScriptFault.OutOfMemory → script_of bytes.now ≡ Err fault }
{
    let mut commands = Items::new(alloc);
    let mut number = 1;
    let mut rest = bytes;
    while let Some((line, behind)) = first_line(rest) {
        read_line(alloc, number, line, &mut commands)?;
        number += 1;
        rest = behind;
    }
    Ok(commands)
}

/// Reads the line of this number, and adds its command. After an `Err` nothing more is read.
fn read_line(
    alloc: Global,
    number: u32,
    line: &[u8],
    commands: &mut Items<Command>,
) -> Result<(), ScriptFault>
    ensures read { OnOk result (both (Ok commands.old) (line_read number line.now) ≡ Ok commands.new) }
    ensures within { OnOk result (number ≤ MAX_LINES) }
    ensures fault { (fault : ScriptFault) → result ≡ Err fault → fault ≢ ScriptFault.OutOfMemory → line_read number line.now ≡ Err fault }
{
    if line.len() > MAX_LINE {
        return Err(ScriptFault::Line(number));
    }
    if is_skipped(line) {
        return within(number);
    }
    match command_of(alloc, line)? {
        Some(form) => {
            within(number)?;
            commands.push(Command { line: number, form })?;
            Ok(())
        }
        None => Err(ScriptFault::Line(number)),
    }
}

/// Whether a line is a comment, or has no word.
fn is_skipped(line: &[u8]) -> bool
    ensures { result ≡ is_skipped line.now }
{
    is_comment(line) || is_blank(line)
}

/// Whether the first byte of a line is `#`.
fn is_comment(line: &[u8]) -> bool
    ensures { result ≡ is_comment line.now }
{
    match line {
        [] => false,
        [first, ..] => *first == b'#',
    }
}

/// Whether a line has no word.
fn is_blank(line: &[u8]) -> bool
    ensures { result ≡ list_all is_gap line.now }
{
    line.iter().all(|byte| is_gap(*byte))
}

/// The command that a line is. None exactly where it is none.
fn command_of(alloc: Global, line: &[u8]) -> Result<Option<Form>, OutOfMemory>
    ensures { IfOk result (λ form. form ≡ form_of (words_of line.now)) }
{
    let words = words_of(alloc, line)?;
    form_of(alloc, words.as_slice())
}

/// An `Err` exactly where a line of this number is one too many.
fn within(number: u32) -> Result<(), ScriptFault>
    ensures within { OnOk result (number ≤ MAX_LINES) }
    ensures fault { IfErr result (λ fault. (fault ≡ ScriptFault.TooMany number) × (MAX_LINES < number)) }
{
    if number > MAX_LINES {
        return Err(ScriptFault::TooMany(number));
    }
    Ok(())
}

/// The first line, and the bytes behind it. None exactly where there is no byte.
fn first_line(bytes: &[u8]) -> Option<(&[u8], &[u8])>
    ensures found { IfSome result (λ parts. (lines_of bytes.now ≡ parts.0.now ∷ lines_of parts.1.now)
        × (length parts.1.now < length bytes.now)) }
    ensures none { IfNone result (lines_of bytes.now ≡ []) }
{
    if bytes.is_empty() {
        return None;
    }
    match split_line(bytes) {
        Some((line, behind)) => Some((without_return(line), behind)),
        None => Some((bytes, &[])),
    }
}

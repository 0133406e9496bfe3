//! The line of a command.

ghost use Rattle.std.specs.Prelude.{◌≡◌, ◌++◌, codes, OnOk, OnErr, IfOk};
ghost use Rattle.std.specs.Fmt.{decimal};
ghost use Rattle.report_text.specs.Reply.{IsPrintable, counted, shown_code, shown_posted, shown_sent, shown_reply, shown_lengths, shown_refusal, reply_line};

use crate::Reply;
use crate::joining::put_lengths;
use crate::put::{put, put_counted, put_number};
use crate::refusal::put_refusal;
use ale_base::OutOfMemory;
use status_log::{Refusal, Status};
use std::alloc::Global;

/// Appends the line of a command: the number of its line in the script, its first word, ` -> `, its reply, and in brackets
/// how many records the log of each system has. A refusal in it has a number. After an `Err` nothing was appended.
pub fn reply_line(
    alloc: Global,
    line: u32,
    verb: &[u8],
    answer: &Reply,
    lengths: &[u64],
    into: &mut Vec<u8>,
) -> Result<(), OutOfMemory>
    requires printable { IsPrintable answer.now }
    ensures written { OnOk result (into.new.items ≡ into.old.items ++ reply_line line verb.now answer.now lengths.now) }
    ensures err { OnErr result (into.new.items ≡ into.old.items) }
{
    let text = line_text(alloc, line, verb, answer, lengths)?;
    put(into, text.as_slice())
}

/// The line of a command.
fn line_text(
    alloc: Global,
    line: u32,
    verb: &[u8],
    answer: &Reply,
    lengths: &[u64],
) -> Result<Vec<u8>, OutOfMemory>
    ensures { IfOk result (λ text. text.items ≡ reply_line line verb.now answer.now lengths.now) }
{
    let mut text = Vec::new(alloc);
    put_command(alloc, &mut text, line, verb)?;
    put_reply(alloc, &mut text, answer)?;
    put_lengths(alloc, &mut text, lengths)?;
    Ok(text)
}

/// Appends the number of a line, the first word of its command, and an arrow.
fn put_command(alloc: Global, text: &mut Vec<u8>, line: u32, verb: &[u8]) -> Result<(), OutOfMemory>
    ensures { OnOk result (text.new.items ≡ text.old.items ++ (decimal line ++ (codes " " ++ (verb.now ++ codes " -> ")))) }
{
    put_number(alloc, text, u64::from(line))?;
    put(text, b" ")?;
    put(text, verb)?;
    put(text, b" -> ")
}

/// Appends a reply.
fn put_reply(alloc: Global, text: &mut Vec<u8>, answer: &Reply) -> Result<(), OutOfMemory>
    ensures { OnOk result (text.new.items ≡ text.old.items ++ shown_reply answer.now) }
{
    match answer {
        Reply::Sent { documents, units } => put_sent(alloc, text, *documents, *units),
        Reply::Pointers(count) => put_counted(alloc, text, b"pointers", *count),
        Reply::Gathered {
            masters,
            documents,
            units,
        } => put_gathered(alloc, text, *masters, *documents, *units),
        Reply::Units(count) => put_counted(alloc, text, b"units", *count),
        Reply::Models(count) => put_counted(alloc, text, b"models", *count),
        Reply::Finished(count) => put_counted(alloc, text, b"finished", *count),
        Reply::Carried => put(text, b"ok"),
        Reply::New => put(text, b"new"),
        Reply::Known => put(text, b"known"),
        Reply::SysFail => put(text, b"sysfail"),
        Reply::Down => put(text, b"down"),
        Reply::Posted(status) => put_posted(alloc, text, *status),
        Reply::Lines(count) => put_counted(alloc, text, b"lines", *count),
        Reply::Fault => put(text, b"fault"),
        Reply::Refused(why) => put_refused(alloc, text, why),
    }
}

fn put_sent(
    alloc: Global,
    text: &mut Vec<u8>,
    documents: u64,
    units: u64,
) -> Result<(), OutOfMemory>
    ensures { OnOk result (text.new.items ≡ text.old.items ++ shown_sent documents units) }
{
    put_counted(alloc, text, b"documents", documents)?;
    put(text, b" ")?;
    put_counted(alloc, text, b"units", units)
}

fn put_gathered(
    alloc: Global,
    text: &mut Vec<u8>,
    masters: u64,
    documents: u64,
    units: u64,
) -> Result<(), OutOfMemory>
    ensures { OnOk result (text.new.items ≡ text.old.items ++ (counted (codes "masters") masters ++ (codes " " ++ shown_sent documents units))) }
{
    put_counted(alloc, text, b"masters", masters)?;
    put(text, b" ")?;
    put_sent(alloc, text, documents, units)
}

/// Appends the last status of a document, and behind 51 the reason.
fn put_posted(alloc: Global, text: &mut Vec<u8>, status: Status) -> Result<(), OutOfMemory>
    ensures { OnOk result (text.new.items ≡ text.old.items ++ shown_posted status) }
{
    let code = code_digits(status.code);
    if status.code == 51 {
        put_counted(alloc, text, &code, u64::from(status.reason))
    } else {
        put(text, &code)
    }
}

/// The two digits of a status.
pub(crate) fn code_digits(code: u8) -> [u8; 2]
    ensures { result ≡ shown_code code }
{
    [b'0' + code / 10, b'0' + code % 10]
}

fn put_refused(alloc: Global, text: &mut Vec<u8>, why: &Refusal) -> Result<(), OutOfMemory>
    ensures { OnOk result (text.new.items ≡ text.old.items ++ (codes "refused " ++ shown_refusal why.now)) }
{
    put(text, b"refused ")?;
    put_refusal(alloc, text, why)
}

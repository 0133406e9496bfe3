//! The text of a refusal.

ghost use Rattle.std.specs.Prelude.{◌≡◌, ◌++◌, codes, OnOk};
ghost use Rattle.report_text.specs.Reply.{counted, shown_syntax, shown_refusal};

use crate::put::{put, put_counted};
use ale_base::OutOfMemory;
use idoc_tree::SyntaxFault;
use status_log::Refusal;
use std::alloc::Global;

/// Appends the number of a refusal, and what follows it.
pub(crate) fn put_refusal(
    alloc: Global,
    text: &mut Vec<u8>,
    refusal: &Refusal,
) -> Result<(), OutOfMemory>
    ensures { OnOk result (text.new.items ≡ text.old.items ++ shown_refusal refusal.now) }
{
    match refusal {
        Refusal::N1 => put(text, b"1"),
        Refusal::N2 => put(text, b"2"),
        Refusal::N3 => put(text, b"3"),
        Refusal::N4(fault) => put_syntax_refusal(alloc, text, fault),
        Refusal::N5 => put(text, b"5"),
        Refusal::N6 => put(text, b"6"),
        Refusal::N7 => put(text, b"7"),
        Refusal::N8 => put(text, b"8"),
        Refusal::N9 => put(text, b"9"),
        Refusal::N10(length) => put_counted(alloc, text, b"10", *length),
        Refusal::N11(count) => put_counted(alloc, text, b"11", *count),
        Refusal::N12 => put(text, b"12"),
        Refusal::N13(count) => put_counted(alloc, text, b"13", *count),
        Refusal::N14(words) => put_both(text, b"14 ", words.as_slice()),
        Refusal::N15(path) => put_both(text, b"15 ", path.as_slice()),
        // These have no number, and no reply holds them.
        Refusal::Volume | Refusal::OutOfMemory => put(text, b""),
    }
}

/// Appends these bytes, and those behind them.
fn put_both(text: &mut Vec<u8>, first: &[u8], second: &[u8]) -> Result<(), OutOfMemory>
    ensures { OnOk result (text.new.items ≡ text.old.items ++ (first.now ++ second.now)) }
{
    put(text, first)?;
    put(text, second)
}

fn put_syntax_refusal(
    alloc: Global,
    text: &mut Vec<u8>,
    fault: &SyntaxFault,
) -> Result<(), OutOfMemory>
    ensures { OnOk result (text.new.items ≡ text.old.items ++ shown_refusal (Refusal.N4 fault.now)) }
{
    put(text, b"4 ")?;
    put_syntax(alloc, text, fault)
}

/// Appends why segments are no document.
fn put_syntax(alloc: Global, text: &mut Vec<u8>, fault: &SyntaxFault) -> Result<(), OutOfMemory>
    ensures { OnOk result (text.new.items ≡ text.old.items ++ shown_syntax fault.now) }
{
    match fault {
        SyntaxFault::UnknownSegment(place) => {
            put_counted(alloc, text, b"UnknownSegment", u64::from(*place))
        }
        SyntaxFault::Misplaced(place) => put_counted(alloc, text, b"Misplaced", u64::from(*place)),
        SyntaxFault::TooMany(place) => put_counted(alloc, text, b"TooMany", u64::from(*place)),
        SyntaxFault::Missing(name, place) => {
            put_missing(alloc, text, name.as_slice(), u64::from(*place))
        }
        // No refusal holds want of memory.
        SyntaxFault::OutOfMemory => put(text, b"OutOfMemory"),
    }
}

fn put_missing(
    alloc: Global,
    text: &mut Vec<u8>,
    name: &[u8],
    place: u64,
) -> Result<(), OutOfMemory>
    ensures { OnOk result (text.new.items ≡ text.old.items ++ (codes "Missing " ++ counted name.now place)) }
{
    put(text, b"Missing ")?;
    put_counted(alloc, text, name, place)
}

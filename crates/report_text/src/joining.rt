//! Numbers and statuses with something between them.

ghost use Rattle.std.specs.Prelude.{◌≡◌, ◌++◌, codes, OnOk};
ghost use Rattle.std.specs.Fmt.{decimal};
ghost use Rattle.std.specs.List.{flat_map};
ghost use Rattle.report_text.specs.Reply.{joined, shown_lengths};
ghost use Rattle.report_text.specs.Listing.{shown_status};

use crate::put::{put, put_number};
use crate::replies::code_digits;
use ale_base::OutOfMemory;
use status_log::Status;
use std::alloc::Global;

/// Appends how long each log is, in brackets, and ends the line.
pub(crate) fn put_lengths(
    alloc: Global,
    text: &mut Vec<u8>,
    lengths: &[u64],
) -> Result<(), OutOfMemory>
    ensures { OnOk result (text.new.items ≡ text.old.items ++ shown_lengths lengths.now) }
{
    put(text, b" [")?;
    put_numbers(alloc, text, lengths)?;
    put(text, b"]\n")
}

/// Appends numbers with blanks between them.
fn put_numbers(alloc: Global, text: &mut Vec<u8>, numbers: &[u64]) -> Result<(), OutOfMemory>
    ensures { OnOk result (text.new.items ≡ text.old.items ++ joined (codes " ") decimal numbers.now) }
{
    match numbers {
        [] => Ok(()),
        [first, rest @ ..] => {
            put_number(alloc, text, *first)?;
            put_more_numbers(alloc, text, rest)
        }
    }
}

/// Appends numbers with a blank before each.
fn put_more_numbers(alloc: Global, text: &mut Vec<u8>, numbers: &[u64]) -> Result<(), OutOfMemory>
    ensures { OnOk result (text.new.items ≡ text.old.items ++ flat_map (λ n. codes " " ++ decimal n) numbers.now) }
{
    for number in numbers {
        put_next_number(alloc, text, *number)?;
    }
    Ok(())
}

fn put_next_number(alloc: Global, text: &mut Vec<u8>, number: u64) -> Result<(), OutOfMemory>
    ensures { OnOk result (text.new.items ≡ text.old.items ++ (codes " " ++ decimal number)) }
{
    put(text, b" ")?;
    put_number(alloc, text, number)
}

/// Appends statuses with commas between them.
pub(crate) fn put_statuses(
    alloc: Global,
    text: &mut Vec<u8>,
    statuses: &[Status],
) -> Result<(), OutOfMemory>
    ensures { OnOk result (text.new.items ≡ text.old.items ++ joined (codes ",") shown_status statuses.now) }
{
    match statuses {
        [] => Ok(()),
        [first, rest @ ..] => {
            put_status(alloc, text, *first)?;
            put_more_statuses(alloc, text, rest)
        }
    }
}

/// Appends statuses with a comma before each.
fn put_more_statuses(
    alloc: Global,
    text: &mut Vec<u8>,
    statuses: &[Status],
) -> Result<(), OutOfMemory>
    ensures { OnOk result (text.new.items ≡ text.old.items ++ flat_map (λ s. codes "," ++ shown_status s) statuses.now) }
{
    for status in statuses {
        put_next_status(alloc, text, *status)?;
    }
    Ok(())
}

fn put_next_status(alloc: Global, text: &mut Vec<u8>, status: Status) -> Result<(), OutOfMemory>
    ensures { OnOk result (text.new.items ≡ text.old.items ++ (codes "," ++ shown_status status)) }
{
    put(text, b",")?;
    put_status(alloc, text, status)
}

/// Appends a status, and behind 51 the reason in brackets.
pub(crate) fn put_status(
    alloc: Global,
    text: &mut Vec<u8>,
    status: Status,
) -> Result<(), OutOfMemory>
    ensures { OnOk result (text.new.items ≡ text.old.items ++ shown_status status) }
{
    put(text, &code_digits(status.code))?;
    if status.code == 51 {
        put_reason(alloc, text, status.reason)
    } else {
        Ok(())
    }
}

fn put_reason(alloc: Global, text: &mut Vec<u8>, reason: u8) -> Result<(), OutOfMemory>
    ensures { OnOk result (text.new.items ≡ text.old.items ++ (codes "(" ++ (decimal reason ++ codes ")"))) }
{
    put(text, b"(")?;
    put_number(alloc, text, u64::from(reason))?;
    put(text, b")")
}

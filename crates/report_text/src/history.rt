//! Lines of what became of a document.

ghost use Rattle.std.specs.Prelude.{◌≡◌, ◌++◌, OnOk};
ghost use Rattle.std.specs.List.{flat_map};
ghost use Rattle.report_text.specs.Listing.{line_of, shown_history, shown_moment};

use crate::joining::put_status;
use crate::put::{put, put_number};
use ale_base::OutOfMemory;
use status_log::HistoryLine;
use std::alloc::Global;

/// Appends a line a status.
pub(crate) fn put_history(
    alloc: Global,
    text: &mut Vec<u8>,
    lines: &[HistoryLine],
) -> Result<(), OutOfMemory>
    ensures { OnOk result (text.new.items ≡ text.old.items ++ flat_map (λ h. line_of (shown_history h)) lines.now) }
{
    for line in lines {
        put_line(alloc, text, *line)?;
    }
    Ok(())
}

/// Appends the line of a status.
fn put_line(alloc: Global, text: &mut Vec<u8>, line: HistoryLine) -> Result<(), OutOfMemory>
    ensures { OnOk result (text.new.items ≡ text.old.items ++ line_of (shown_history line)) }
{
    put(text, b"  ")?;
    put_status(alloc, text, line.status)?;
    put(text, b" ")?;
    put_moment(alloc, text, line.moment)?;
    put(text, b"\n")
}

/// Appends a moment, or a minus where there is none.
fn put_moment(alloc: Global, text: &mut Vec<u8>, moment: Option<u64>) -> Result<(), OutOfMemory>
    ensures { OnOk result (text.new.items ≡ text.old.items ++ shown_moment moment) }
{
    match moment {
        None => put(text, b"-"),
        Some(moment) => put_number(alloc, text, moment),
    }
}

//! Lines of documents.

ghost use Rattle.std.specs.Prelude.{◌≡◌, ◌++◌, ◌<◌, codes, OnOk};
ghost use Rattle.std.specs.Fmt.{decimal};
ghost use Rattle.std.specs.List.{flat_map, AllByRecursion};
ghost use Rattle.ale_base.specs.Blanks.{trimmed};
ghost use Rattle.report_text.specs.Reply.{joined};
ghost use Rattle.report_text.specs.Listing.{IsPlaced, line_of, shown_way, shown_status, shown_doc, shown_segment};

use crate::joining::put_statuses;
use crate::put::{put, put_number};
use ale_base::{OutOfMemory, Way, trimmed};
use idoc_record::{Control, write_control, write_data};
use status_log::{DocLine, SegmentLine};
use std::alloc::Global;

/// Appends a line a document.
pub(crate) fn put_docs(
    alloc: Global,
    text: &mut Vec<u8>,
    lines: &[DocLine],
) -> Result<(), OutOfMemory>
    ensures { OnOk result (text.new.items ≡ text.old.items ++ flat_map (λ d. line_of (shown_doc d)) lines.now) }
{
    for line in lines {
        put_doc(alloc, text, line)?;
    }
    Ok(())
}

/// Appends the line of a document.
fn put_doc(alloc: Global, text: &mut Vec<u8>, line: &DocLine) -> Result<(), OutOfMemory>
    ensures { OnOk result (text.new.items ≡ text.old.items ++ line_of (shown_doc line.now)) }
{
    put(text, b"  ")?;
    put_number(alloc, text, line.doc.0)?;
    put_between(text, way_word(line.way))?;
    put(text, line.partner.as_slice())?;
    put_between(text, line.message.as_slice())?;
    put_statuses(alloc, text, line.statuses.as_slice())?;
    put(text, b"\n")
}

/// The word for a direction.
pub(crate) fn way_word(way: Way) -> &'static [u8]
    ensures { result.now ≡ shown_way way }
{
    match way {
        Way::Outgoing => b"out",
        Way::Incoming => b"in",
    }
}

/// Appends a word with a blank before it and a blank behind it.
pub(crate) fn put_between(text: &mut Vec<u8>, word: &[u8]) -> Result<(), OutOfMemory>
    ensures { OnOk result (text.new.items ≡ text.old.items ++ (codes " " ++ (word.now ++ codes " "))) }
{
    put(text, b" ")?;
    put(text, word)?;
    put(text, b" ")
}

/// Appends the control record of a document and a line a segment, without the blanks at their ends.
pub(crate) fn put_document(
    alloc: Global,
    text: &mut Vec<u8>,
    control: &Control,
    lines: &[SegmentLine],
) -> Result<(), OutOfMemory>
    requires { AllByRecursion IsPlaced lines.now }
    ensures { OnOk result (text.new.items ≡ text.old.items
        ++ (line_of (trimmed control.now) ++ flat_map (λ s. line_of (shown_segment control.now s)) lines.now)) }
{
    put_control(alloc, text, control)?;
    put_segments(alloc, text, control, lines)
}

/// Appends the line of a control record.
fn put_control(alloc: Global, text: &mut Vec<u8>, control: &Control) -> Result<(), OutOfMemory>
    ensures { OnOk result (text.new.items ≡ text.old.items ++ line_of (trimmed control.now)) }
{
    let mut record = Vec::new(alloc);
    write_control(control, &mut record)?;
    put_line(text, trimmed(record.as_slice()))
}

/// Appends a line a segment.
fn put_segments(
    alloc: Global,
    text: &mut Vec<u8>,
    control: &Control,
    lines: &[SegmentLine],
) -> Result<(), OutOfMemory>
    requires { AllByRecursion IsPlaced lines.now }
    ensures { OnOk result (text.new.items ≡ text.old.items ++ flat_map (λ s. line_of (shown_segment control.now s)) lines.now) }
{
    for line in lines {
        put_segment(alloc, text, control, line)?;
    }
    Ok(())
}

/// Appends the line of a segment.
#[tactic(auto, unfolding(crate::specs::Listing::shown_segment))]
fn put_segment(
    alloc: Global,
    text: &mut Vec<u8>,
    control: &Control,
    line: &SegmentLine,
) -> Result<(), OutOfMemory>
    requires { IsPlaced line.now }
    ensures { OnOk result (text.new.items ≡ text.old.items ++ line_of (shown_segment control.now line.now)) }
{
    let mut record = Vec::new(alloc);
    write_data(control, line.place, &line.line, &mut record)?;
    put_line(text, trimmed(record.as_slice()))
}

/// Appends a line of a listing.
fn put_line(text: &mut Vec<u8>, line: &[u8]) -> Result<(), OutOfMemory>
    ensures { OnOk result (text.new.items ≡ text.old.items ++ line_of line.now) }
{
    put(text, b"  ")?;
    put(text, line)?;
    put(text, b"\n")
}

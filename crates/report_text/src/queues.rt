//! Lines of queues.

ghost use Rattle.std.specs.Prelude.{◌≡◌, ◌++◌, codes, OnOk};
ghost use Rattle.std.specs.List.{flat_map};
ghost use Rattle.report_text.specs.Listing.{line_of, shown_queue, shown_queue_status, shown_destination};

use crate::docs::way_word;
use crate::put::{put, put_counted};
use ale_base::{OutOfMemory, Way};
use plain_queues::QueueStatus;
use status_log::QueueLine;
use std::alloc::Global;

/// Appends a line a queue.
pub(crate) fn put_queues(
    alloc: Global,
    text: &mut Vec<u8>,
    lines: &[QueueLine],
) -> Result<(), OutOfMemory>
    ensures { OnOk result (text.new.items ≡ text.old.items ++ flat_map (λ q. line_of (shown_queue q)) lines.now) }
{
    for line in lines {
        put_queue(alloc, text, line)?;
    }
    Ok(())
}

/// Appends the line of a queue.
fn put_queue(alloc: Global, text: &mut Vec<u8>, line: &QueueLine) -> Result<(), OutOfMemory>
    ensures { OnOk result (text.new.items ≡ text.old.items ++ line_of (shown_queue line.now)) }
{
    put(text, b"  ")?;
    put(text, way_word(line.way))?;
    put(text, b" ")?;
    put_destination(text, line.way, line.partner.as_slice())?;
    put_counted(alloc, text, line.name.bytes(), line.count)?;
    put(text, b" ")?;
    put(text, status_word(line.status))?;
    put(text, b"\n")
}

/// Appends the destination of an outbound queue and a blank, and nothing for an inbound one.
fn put_destination(text: &mut Vec<u8>, way: Way, partner: &[u8]) -> Result<(), OutOfMemory>
    ensures { OnOk result (text.new.items ≡ text.old.items ++ shown_destination way partner.now) }
{
    match way {
        Way::Outgoing => {
            put(text, partner)?;
            put(text, b" ")
        }
        Way::Incoming => Ok(()),
    }
}

/// The word for the status of a queue.
fn status_word(status: QueueStatus) -> &'static [u8]
    ensures { result.now ≡ shown_queue_status status }
{
    match status {
        QueueStatus::Stop => b"STOP",
        QueueStatus::Running => b"RUNNING",
        QueueStatus::Sysfail => b"SYSFAIL",
        QueueStatus::Cpicerr => b"CPICERR",
        QueueStatus::Waitstop => b"WAITSTOP",
        QueueStatus::Waiting => b"WAITING",
        QueueStatus::Ready => b"READY",
    }
}

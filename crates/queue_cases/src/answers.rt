//! Answers of queues as text.

use ale_base::{Mark, OutOfMemory, Tid};
use case_form::Text;
use multi_queue::{Claim, NotOffered, QueueCount, QueueKey, QueueStatus};

/// Puts a claim, or that there is none.
pub(crate) fn put_claim(text: &mut Text, claim: Option<&Claim>) -> Result<(), OutOfMemory> {
    let Some(claim) = claim else {
        return text.put_line(b"none");
    };
    text.put(b"claim ")?;
    put_tid(text, claim.tid)?;
    text.put(b" under ")?;
    text.put_number(claim.number)?;
    text.end_line()
}

/// Puts why a unit is not offered, or that nothing is against it.
pub(crate) fn put_why(text: &mut Text, why: Option<&NotOffered>) -> Result<(), OutOfMemory> {
    match why {
        None => text.put(b"none")?,
        Some(NotOffered::Unknown) => text.put(b"Unknown")?,
        Some(NotOffered::Running(number)) => {
            text.put(b"Running ")?;
            text.put_number(*number)?;
        }
        Some(NotOffered::Failed(Mark::Cpicerr)) => text.put(b"Failed CPICERR")?,
        Some(NotOffered::Failed(Mark::Sysfail)) => text.put(b"Failed SYSFAIL")?,
        Some(NotOffered::Stopped(key)) => {
            text.put(b"Stopped ")?;
            put_key(text, key)?;
        }
        Some(NotOffered::Behind(key, tid)) => {
            text.put(b"Behind ")?;
            put_key(text, key)?;
            text.put(b" ")?;
            put_tid(text, *tid)?;
        }
    }
    text.end_line()
}

/// Puts of each queue its key, how many units it holds, and its status; or that there is none.
pub(crate) fn put_lines(text: &mut Text, lines: &[QueueCount]) -> Result<(), OutOfMemory> {
    if lines.is_empty() {
        return text.put_line(b"none");
    }
    for line in lines {
        put_key(text, &line.key)?;
        text.put(b" ")?;
        text.put_number(line.count)?;
        text.put(b" ")?;
        text.put_line(name_of(line.status))?;
    }
    Ok(())
}

/// Puts an id: its system, a dot and its number.
fn put_tid(text: &mut Text, tid: Tid) -> Result<(), OutOfMemory> {
    text.put_number(u64::from(tid.system().get()))?;
    text.put(b".")?;
    text.put_number(u64::from(tid.unit()))
}

/// Puts a key: its partner, a slash and its name.
fn put_key(text: &mut Text, key: &QueueKey) -> Result<(), OutOfMemory> {
    text.put_number(u64::from(key.partner))?;
    text.put(b"/")?;
    text.put(key.name.bytes())
}

/// The name of a status, as an operator sees it.
fn name_of(status: QueueStatus) -> &'static [u8] {
    match status {
        QueueStatus::Stop => b"STOP",
        QueueStatus::Running => b"RUNNING",
        QueueStatus::Sysfail => b"SYSFAIL",
        QueueStatus::Cpicerr => b"CPICERR",
        QueueStatus::Waitstop => b"WAITSTOP",
        QueueStatus::Waiting => b"WAITING",
        QueueStatus::Ready => b"READY",
    }
}

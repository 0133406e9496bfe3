//! Marks of units and stopped queues, each by the last record of it in a log.

ghost use Rattle.std.specs.Prelude.{◌≡◌, ℕ, Bool};
ghost use Rattle.unit_core.specs.Filters.{mark_of, mark_after, is_marked, is_stopped, stopped_after};

use crate::Record;
use ale_base::{Mark, QueueName, Tid, Way};

/// Whether a unit is marked in this direction since its last Retry: at its sender by a Mark, at its receiver by a Fail.
pub fn is_marked(way: Way, tid: Tid, log: &[Record]) -> bool
    ensures { result ≡ is_marked way tid log.now }
{
    mark_of(way, tid, log).is_some()
}

/// The mark of a unit in this direction, since its last Retry.
fn mark_of(way: Way, tid: Tid, log: &[Record]) -> Option<Mark>
    ensures { result ≡ mark_of way tid log.now }
{
    let mut mark = None;
    for record in log {
        mark = mark_after(way, tid, mark, record);
    }
    mark
}

/// The mark after one more record.
fn mark_after(way: Way, tid: Tid, before: Option<Mark>, entry: &Record) -> Option<Mark>
    ensures { result ≡ mark_after way tid before entry.now }
{
    match (way, entry) {
        (Way::Outgoing, Record::Mark { tid: other, cause }) if *other == tid => Some(*cause),
        (
            Way::Outgoing,
            Record::Retry {
                way: Way::Outgoing,
                tid: other,
            },
        ) if *other == tid => None,
        (Way::Incoming, Record::Fail { tid: other }) if *other == tid => Some(Mark::Sysfail),
        (
            Way::Incoming,
            Record::Retry {
                way: Way::Incoming,
                tid: other,
            },
        ) if *other == tid => None,
        _ => before,
    }
}

/// Whether a queue is stopped: a Stop of it stands after its last Start. The destination is that of an outbound queue,
/// and 0 for an inbound one.
pub fn is_stopped(way: Way, destination: u8, name: QueueName, log: &[Record]) -> bool
    ensures { result ≡ is_stopped way destination name log.now }
{
    let mut stopped = false;
    for record in log {
        stopped = stopped_after(way, destination, name, stopped, record);
    }
    stopped
}

/// Whether the queue is stopped after one more record.
fn stopped_after(way: Way, destination: u8, name: QueueName, before: bool, entry: &Record) -> bool
    ensures { result ≡ stopped_after way destination name before entry.now }
{
    match entry {
        Record::Stop {
            way: w,
            destination: d,
            name: n,
        } if *w == way && *d == destination && *n == name => true,
        Record::Start {
            way: w,
            destination: d,
            name: n,
        } if *w == way && *d == destination && *n == name => false,
        _ => before,
    }
}

//! The status of a queue, by its number.

ghost use Rattle.std.specs.Prelude.{◌≡◌, ◌<◌, None, length, slice_get};
ghost use Rattle.multi_queue.specs.Counted.{IsKept};
ghost use Rattle.multi_queue.specs.Seen.{AreKnown, status_of_lane, status_of_head, status_by_count};

use crate::counting::Counting;
use crate::entry::{Entry, Lane};
use crate::reasons::first_stopped;
use ale_base::{Items, Mark};
use plain_queues::QueueStatus;

impl Counting {
    /// The status of the queue of a number. None exactly where it is empty.
    pub(crate) fn status_at(&self, queue: usize) -> Option<QueueStatus>
        requires kept { IsKept None self.now }
        requires within { queue < length self.now.lanes }
        ensures { result ≡ status_of_lane self.now.units self.now.lanes self.now.board.heads (slice_get self.now.lanes queue) }
    {
        let lane = &self.lanes[queue];
        match lane.line.head() {
            Some(place) => Some(status_of_head(
                &self.lanes,
                lane.stopped,
                &self.units[place],
                self.board.heads[place],
            )),
            None => None,
        }
    }
}

/// The status of a queue by the unit that heads it, which is not finished, and its count.
fn status_of_head(lanes: &Items<Lane>, stopped: bool, unit: &Entry, count: usize) -> QueueStatus
    requires known { AreKnown unit.now.queues lanes.now }
    ensures { result ≡ status_of_head lanes.now stopped count unit.now }
{
    if stopped {
        return QueueStatus::Stop;
    }
    if unit.claim.is_some() {
        return QueueStatus::Running;
    }
    match unit.mark {
        Some(Mark::Sysfail) => QueueStatus::Sysfail,
        Some(Mark::Cpicerr) => QueueStatus::Cpicerr,
        None => status_by_count(lanes, unit.queues.as_slice(), count),
    }
}

/// The status of a queue by the queues of the unit that heads it, which is neither claimed nor marked, and its count.
fn status_by_count(lanes: &Items<Lane>, queues: &[usize], count: usize) -> QueueStatus
    requires known { AreKnown queues.now lanes.now }
    ensures { result ≡ status_by_count lanes.now queues.now count }
{
    if first_stopped(lanes, queues).is_some() {
        QueueStatus::Waitstop
    } else if count == queues.len() {
        QueueStatus::Ready
    } else {
        QueueStatus::Waiting
    }
}

//! Why a unit is not offered, by its place.

ghost use Rattle.std.specs.Prelude.{◌≡◌, ◌<◌, ℕ, Some, length, slice_get};
ghost use Rattle.multi_queue.specs.declared.entry.Entry.{Entry};
ghost use Rattle.multi_queue.specs.Seen.{AreKnown, AreHeaded, stopped_reason, behind_reason, first_stopped_of, first_behind_of, why_not_of, heads_lane, heads_all_of, is_free_of};

use crate::entry::{Entry, Lane};
use ale_base::Items;
use plain_queues::NotOffered;

/// Why the unit at a place, which is this one, is not offered: the first reason that applies.
pub(crate) fn why_not_at(
    units: &Items<Entry>,
    lanes: &Items<Lane>,
    place: usize,
    unit: &Entry,
) -> Option<NotOffered>
    requires known { AreKnown unit.now.queues lanes.now }
    requires headed { AreHeaded units.now lanes.now }
    ensures { result ≡ why_not_of units.now lanes.now place unit.now }
{
    if let Some(number) = unit.claim {
        return Some(NotOffered::Running(number));
    }
    if let Some(mark) = unit.mark {
        return Some(NotOffered::Failed(mark));
    }
    match first_stopped(lanes, unit.queues.as_slice()) {
        Some(why) => Some(why),
        None => first_behind(units, lanes, place, unit.queues.as_slice()),
    }
}

/// Whether the unit at a place, which is this one, is free.
pub(crate) fn free_at(lanes: &Items<Lane>, place: usize, unit: &Entry) -> bool
    requires known { AreKnown unit.now.queues lanes.now }
    ensures { result ≡ is_free_of lanes.now place unit.now }
{
    unit.claim.is_none() && unit.mark.is_none() && heads_all(lanes, place, unit.queues.as_slice())
}

/// Whether the unit at a place heads all these queues.
fn heads_all(lanes: &Items<Lane>, place: usize, queues: &[usize]) -> bool
    requires known { AreKnown queues.now lanes.now }
    ensures { result ≡ heads_all_of lanes.now place queues.now }
{
    for queue in queues {
        if !heads_lane(place, &lanes[*queue]) {
            return false;
        }
    }
    true
}

/// Whether the unit at a place heads a queue.
fn heads_lane(place: usize, lane: &Lane) -> bool
    ensures { result ≡ heads_lane place (Some lane.now) }
{
    match lane.line.head() {
        Some(head) => head == place,
        None => false,
    }
}

/// The first stopped queue of these, as a reason.
pub(crate) fn first_stopped(lanes: &Items<Lane>, queues: &[usize]) -> Option<NotOffered>
    requires known { AreKnown queues.now lanes.now }
    ensures { result ≡ first_stopped_of lanes.now queues.now }
{
    for queue in queues {
        if let Some(why) = stopped_reason(&lanes[*queue]) {
            return Some(why);
        }
    }
    None
}

/// That a queue is stopped, as a reason.
fn stopped_reason(lane: &Lane) -> Option<NotOffered>
    ensures { result ≡ stopped_reason (Some lane.now) }
{
    if lane.stopped {
        Some(NotOffered::Stopped(lane.key))
    } else {
        None
    }
}

/// The first queue of these that a unit at another place heads, as a reason.
fn first_behind(
    units: &Items<Entry>,
    lanes: &Items<Lane>,
    place: usize,
    queues: &[usize],
) -> Option<NotOffered>
    requires known { AreKnown queues.now lanes.now }
    requires headed { AreHeaded units.now lanes.now }
    ensures { result ≡ first_behind_of units.now lanes.now place queues.now }
{
    for queue in queues {
        if let Some(why) = behind_reason(units, place, &lanes[*queue]) {
            return Some(why);
        }
    }
    None
}

/// That a unit at another place heads a queue, as a reason.
fn behind_reason(units: &Items<Entry>, place: usize, lane: &Lane) -> Option<NotOffered>
    requires headed { (p : ℕ) → slice_get lane.now.line 0 ≡ Some p → p < length units.now }
    ensures { result ≡ behind_reason units.now place (Some lane.now) }
{
    match lane.line.head() {
        Some(head) => {
            if head == place {
                None
            } else {
                Some(NotOffered::Behind(lane.key, units[head].tid))
            }
        }
        None => None,
    }
}

//! Questions to the queues, which change nothing.

ghost use Rattle.std.specs.Prelude.{◌≡◌};

use super::Queues;
use crate::queue_key::has_key;
use crate::queued_unit::QueuedUnit;
use crate::{Claim, NotOffered, QueueKey, QueueStatus};
use ale_base::{Mark, Tid};

impl Queues {
    ghost use Rattle.std.specs.Prelude.{◌≡◌, ◌↔◌, true, false, find, Some, IsTrue, IsNone, IsSome, IfSome, []};
    ghost use Rattle.std.specs.List.{list_any, list_all};
    ghost use Rattle.std.specs.Option.{option_copied};
    ghost use Rattle.ale_base.specs.Tid.{TidOf};
    ghost use Rattle.plain_queues.specs.Queues.{unit_of, claim_of, mark_on, head_of, in_queue, is_stopped};
    ghost use Rattle.plain_queues.specs.Offered.{heads, lets_go, is_ready, is_offered, is_free, is_free_unit, first_offered, first_stopped, behind_head, first_behind, why_not_unit, why_not};
    ghost use Rattle.plain_queues.specs.Status.{status_of, status_by_head, status_of_free};

    /// Whether the unit of this id is offered: it is here, not claimed, not marked, heads each of its queues, and none of these is
    /// stopped.
    pub fn offered(&self, tid: Tid) -> bool
        ensures { result ≡ is_offered tid self.now }
    {
        match self.unit_of(tid) {
            Some(unit) => self.is_ready(unit),
            None => false,
        }
    }

    /// Whether the unit of this id is free: it is here, not claimed, not marked, and heads each of its queues, which may be stopped.
    pub fn is_free(&self, tid: Tid) -> bool
        ensures { result ≡ is_free tid self.now }
    {
        match self.unit_of(tid) {
            Some(unit) => self.is_free_unit(unit),
            None => false,
        }
    }

    /// Whether a unit of this id is here.
    pub fn contains(&self, tid: Tid) -> bool
        ensures { IsTrue result ↔ IsSome (unit_of tid self.now) }
    {
        self.unit_of(tid).is_some()
    }

    /// Whether the unit of a claim is claimed under its number.
    pub fn holds(&self, claim: &Claim) -> bool
        ensures { IsTrue result ↔ (claim_of claim.now.tid self.now ≡ Some claim.now.number) }
    {
        match self.unit_of(claim.tid) {
            Some(unit) => unit.claim == Some(claim.number),
            None => false,
        }
    }

    /// The mark of the unit of this id. None where no such unit is here, or it is not marked.
    pub fn mark_on(&self, tid: Tid) -> Option<Mark>
        ensures { result ≡ mark_on tid self.now }
    {
        match self.unit_of(tid) {
            Some(unit) => unit.mark,
            None => None,
        }
    }

    /// The id of the offered unit that was added first. None exactly where no unit is offered.
    pub fn first_offered(&self) -> Option<Tid>
        ensures first { result ≡ first_offered self.now }
        ensures offered { IfSome result (λ tid. is_offered tid self.now ≡ true) }
        ensures none { IsNone result ↔ ((tid : TidOf) → is_offered tid self.now ≡ false) }
    {
        let _units = &self.units;
        match self.first_ready() {
            Some(unit) => Some(unit.tid),
            None => None,
        }
    }

    /// Why the unit of this id is not offered: the first that applies. None exactly where it is offered.
    pub fn why_not(&self, tid: Tid) -> Option<NotOffered>
        ensures why { result ≡ why_not tid self.now }
        ensures none { IsNone result ↔ (is_offered tid self.now ≡ true) }
    {
        match self.unit_of(tid) {
            Some(unit) => self.why_not_unit(unit),
            None => Some(NotOffered::Unknown),
        }
    }

    /// The status of a queue. None exactly where it is empty.
    pub fn status(&self, key: QueueKey) -> Option<QueueStatus>
        ensures status { result ≡ status_of key self.now }
        ensures none { IsNone result ↔ (in_queue key self.now ≡ []) }
    {
        match self.head_of(&key) {
            Some(head) => Some(self.status_by_head(&key, head)),
            None => None,
        }
    }

    /// The unit that may be claimed and was added first.
    fn first_ready(&self) -> Option<&QueuedUnit>
        ensures { option_copied result ≡ find (is_ready self.now) self.now.units }
    {
        self.units.iter().find(|unit| self.is_ready(unit))
    }

    /// The unit of this id.
    fn unit_of(&self, tid: Tid) -> Option<&QueuedUnit>
        ensures { option_copied result ≡ unit_of tid self.now }
    {
        self.units.iter().find(|unit| unit.tid == tid)
    }

    /// The unit that heads a queue.
    fn head_of(&self, key: &QueueKey) -> Option<&QueuedUnit>
        ensures { option_copied result ≡ head_of key.now self.now }
    {
        self.units
            .iter()
            .find(|unit| has_key(key, unit.keys.as_slice()))
    }

    /// Whether a queue is stopped.
    fn is_stopped(&self, key: &QueueKey) -> bool
        ensures { result ≡ is_stopped key.now self.now }
    {
        has_key(key, self.stops.as_slice())
    }

    /// Whether the unit of this id heads a queue.
    fn heads(&self, tid: Tid, key: &QueueKey) -> bool
        ensures { result ≡ heads tid self.now key.now }
    {
        match self.head_of(key) {
            Some(unit) => unit.tid == tid,
            None => false,
        }
    }

    /// Whether a unit may be claimed.
    fn is_ready(&self, unit: &QueuedUnit) -> bool
        ensures { result ≡ is_ready self.now unit.now }
    {
        unit.claim.is_none()
            && unit.mark.is_none()
            && self.all_let_go(unit.tid, unit.keys.as_slice())
    }

    /// Whether a unit is free.
    fn is_free_unit(&self, unit: &QueuedUnit) -> bool
        ensures { result ≡ is_free_unit self.now unit.now }
    {
        unit.claim.is_none()
            && unit.mark.is_none()
            && self.heads_all(unit.tid, unit.keys.as_slice())
    }

    /// Whether all these queues let the unit of this id go.
    fn all_let_go(&self, tid: Tid, keys: &[QueueKey]) -> bool
        ensures { result ≡ list_all (lets_go tid self.now) keys.now }
    {
        keys.iter().all(|key| self.lets_go(tid, key))
    }

    /// Whether a queue lets the unit of this id go: the unit heads it, and it is not stopped.
    fn lets_go(&self, tid: Tid, key: &QueueKey) -> bool
        ensures { result ≡ lets_go tid self.now key.now }
    {
        self.heads(tid, key) && !self.is_stopped(key)
    }

    /// Why a unit that is here is not offered.
    fn why_not_unit(&self, unit: &QueuedUnit) -> Option<NotOffered>
        ensures { result ≡ why_not_unit self.now unit.now }
    {
        if let Some(number) = unit.claim {
            return Some(NotOffered::Running(number));
        }
        if let Some(mark) = unit.mark {
            return Some(NotOffered::Failed(mark));
        }
        match self.first_stopped(unit.keys.as_slice()) {
            Some(why) => Some(why),
            None => self.first_behind(unit.tid, unit.keys.as_slice()),
        }
    }

    /// The first stopped queue of these, as a reason.
    fn first_stopped(&self, keys: &[QueueKey]) -> Option<NotOffered>
        ensures { result ≡ first_stopped self.now keys.now }
    {
        keys.iter()
            .find(|key| self.is_stopped(key))
            .map(|key| NotOffered::Stopped(*key))
    }

    /// The first queue of these that another unit heads than the one of this id, as a reason.
    fn first_behind(&self, tid: Tid, keys: &[QueueKey]) -> Option<NotOffered>
        ensures { result ≡ first_behind tid self.now keys.now }
    {
        for key in keys {
            if let Some(why) = self.behind_head(tid, key) {
                return Some(why);
            }
        }
        None
    }

    /// The head of a queue, where it is another unit than the one of this id, as a reason.
    fn behind_head(&self, tid: Tid, key: &QueueKey) -> Option<NotOffered>
        ensures { result ≡ behind_head tid key.now (head_of key.now self.now) }
    {
        match self.head_of(key) {
            Some(head) if head.tid != tid => Some(NotOffered::Behind(*key, head.tid)),
            _ => None,
        }
    }

    /// The status of a queue whose head this unit is.
    fn status_by_head(&self, key: &QueueKey, unit: &QueuedUnit) -> QueueStatus
        ensures { result ≡ status_by_head key.now self.now unit.now }
    {
        if self.is_stopped(key) {
            return QueueStatus::Stop;
        }
        if unit.claim.is_some() {
            return QueueStatus::Running;
        }
        match unit.mark {
            Some(Mark::Sysfail) => QueueStatus::Sysfail,
            Some(Mark::Cpicerr) => QueueStatus::Cpicerr,
            None => self.status_of_free(unit),
        }
    }

    /// Whether one of these queues is stopped.
    fn any_stopped(&self, keys: &[QueueKey]) -> bool
        ensures { result ≡ list_any (λ key. is_stopped key self.now) keys.now }
    {
        keys.iter().any(|key| self.is_stopped(key))
    }

    /// Whether the unit of this id heads all these queues.
    fn heads_all(&self, tid: Tid, keys: &[QueueKey]) -> bool
        ensures { result ≡ list_all (heads tid self.now) keys.now }
    {
        keys.iter().all(|key| self.heads(tid, key))
    }

    /// The status of a queue whose head this unit is, where the queue is not stopped and the unit neither claimed nor marked.
    fn status_of_free(&self, unit: &QueuedUnit) -> QueueStatus
        ensures { result ≡ status_of_free self.now unit.now }
    {
        if self.any_stopped(unit.keys.as_slice()) {
            QueueStatus::Waitstop
        } else if self.heads_all(unit.tid, unit.keys.as_slice()) {
            QueueStatus::Ready
        } else {
            QueueStatus::Waiting
        }
    }
}

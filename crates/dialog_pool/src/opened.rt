//! What a pool opens before its workers begin, and how their shares come together when they have ended.

ghost use Rattle.std.specs.Prelude.{◌≡◌, ◌^◌, ◌<◌, true, [], IfOk, vec_len};
ghost use Rattle.std.specs.Arc.{arc_value};
ghost use Rattle.crossbeam_queue.specs.Passes.{view, IsPassOf};
ghost use Rattle.dialog_pool.specs.Tickets.{hand};

use crate::Desk;
use crate::opening::Opening;
use crate::ring::{Place, Ring, new_hand, new_ring};
use crate::worker::Worker;
use ale_base::OutOfMemory;
use std::alloc::Global;
use std::sync::Arc;
use std::sync::ledger::{Book, Share};

/// The ring with the hand that pushes, and the workers.
pub(crate) struct Opened<D: Desk, E: Opening<D::Origin>> {
    pub(crate) ring: Arc<Ring<D, E>>,
    pub(crate) pusher: Place<D, E>,
    pub(crate) workers: Vec<Worker<D, E>>,
}

/// Opens a ring, and makes so many workers, each with a hand on it and one part of the share.
pub(crate) fn open<D: Desk, E: Opening<D::Origin>>(
    alloc: Global,
    workers: u8,
    rest: &mut Share<E>,
) -> Result<Opened<D, E>, OutOfMemory>
    requires parts { rest.old.parts ≡ workers }
    requires amount { rest.old.amount ≡ 0 }
    ensures place { IfOk result (λ opened. IsPassOf (arc_value opened.ring) opened.pusher) }
    ensures new { IfOk result (λ opened. view opened.pusher ≡ hand true 0 []) }
    ensures workers { IfOk result (λ opened. vec_len opened.workers ≡ workers) }
    ensures rest { IfOk result (λ opened. (rest.new.parts ≡ 0) × (rest.new.amount ≡ 0)) }
{
    let (ring, mut pusher) = new_ring::<D, E>(alloc)?;
    let ring = Arc::new(alloc, ring)?;
    let mut all = Vec::new(alloc);
    for _worker in 0..workers {
        let place = new_hand(&*ring, &mut pusher);
        let share = rest.split_off(1, 0);
        all.push(Worker::of(Arc::try_clone(&ring)?, place, share))?;
    }
    Ok(Opened {
        ring,
        pusher,
        workers: all,
    })
}

/// Puts the workers' shares together. The first number is how many works they finished; true if memory was wanting for one.
pub(crate) fn gather<D: Desk, E: Opening<D::Origin>>(
    book: &mut Book<E>,
    rest: Share<E>,
    workers: Vec<Worker<D, E>>,
) -> (u64, bool)
    requires fits { book.old.total < 2 ^ 64 }
    requires rest { (rest.parts ≡ 0) × (rest.amount ≡ 0) }
    requires workers { vec_len workers ≡ E.parts }
    ensures finished { result.0 ≡ book.old.total }
    ensures total { book.new.total ≡ book.old.total }
{
    let mut all = rest;
    let mut workers = workers;
    let mut finished = 0;
    let mut is_short = false;
    while let Some(worker) = workers.pop() {
        let (share, by_it, was_short) = worker.end();
        all.merge(share);
        book.audit(&mut all);
        finished += by_it;
        is_short = is_short || was_short;
    }
    book.audit(&mut all);
    (finished, is_short)
}

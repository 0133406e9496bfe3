//! The pool: it opens a ring, puts the desk under a lock, and lets workers take works until they find none.

ghost use Rattle.std.specs.Prelude.{◌≡◌, ◌+◌, ◌≤◌, ◌∷◌, [], true, IfOk, IfErr, vec_len};
ghost use Rattle.std.specs.Arc.{arc_value};
ghost use Rattle.crossbeam_queue.specs.Passes.{view, IsPassOf};
ghost use Rattle.dialog_pool.specs.Tickets.{hand};

use crate::locked::Locked;
use crate::opened::{Opened, gather, open};
use crate::opening::Opening;
use crate::worker::Worker;
use crate::{Desk, PoolEnd, PoolShort};
use ale_base::OutOfMemory;
use ale_io::Gate;
use std::alloc::Global;
use std::marker::Brand;
use std::sync::ledger::{Blank, Book, Share};
use std::sync::{Mutex, Wait};
use std::thread;
use std::thread::Threads;

/// Lets so many workers, from 1 to 16, take the works of a desk and do them, until they find none. It may wait.
///
/// A worker pops a ticket from a ring, passes the gate and prepares, all without the lock, and only then pops the next,
/// until it has 16 works or the ring is empty. It acts on them all, in the order in which it popped them, in one hold of the
/// lock; so a gate must not let a work wait until another one is done. Where it finds no ticket at first it locks the desk,
/// takes up to 16 works and pushes them. A worker that finds no work at the desk pops once more, and ends. Each ticket that
/// was pushed is on the ring or was popped, and that once, by the law that the ring keeps (`AreOnce`): no list of hands that keeps it
/// has popped a ticket twice (the lemma `popped_once`).
///
/// The desk that is given back has the origin of the one that was handed in. `finished` is what the desk's count rose by,
/// and in the body the sum of what the workers finished. `PoolShort` comes where memory was wanting, in a call of a worker
/// or of the pool itself. A worker for which it was takes no more from the desk, and does what is on the ring; the others go
/// on. A work that is on the ring at the end, or for which memory was wanting, is dropped. Where memory is wanting for a
/// place among a worker's works, it acts on them at once, and nothing is dropped: the pool does not end short for that.
pub fn run_pool<R: Threads + Wait + Sync, D: Desk + Send, G: Gate + Sync>(
    rt: &R,
    alloc: Global,
    desk: D,
    workers: u8,
    gate: &G,
) -> Result<PoolEnd<D>, PoolShort<D>>
    requires workers { (1 ≤ workers) × (workers ≤ 16) }
    ensures origin { IfOk result (λ end. D.origin end.desk ≡ D.origin desk) }
    ensures finished { IfOk result (λ end. D.finishes end.desk ≡ D.finishes desk + end.finished) }
    ensures short_origin { IfErr result (λ short. D.origin short.desk ≡ D.origin desk) }
    ensures short_finished { IfErr result (λ short. D.finishes desk ≤ D.finishes short.desk) }
{
    let blank = Blank::new(workers as u64);
    run_named::<R, D, G, Brand>(rt, alloc, desk, workers, gate, blank)
}

/// Lets workers take the works of a desk, whose origin and ledger the parts of the pool carry in their types.
fn run_named<
    R: Threads + Wait + Sync,
    D: Desk + Send,
    G: Gate + Sync,
    E: Opening<D::Origin> + Send + Sync,
>(
    rt: &R,
    alloc: Global,
    desk: D,
    workers: u8,
    gate: &G,
    blank: Blank,
) -> Result<PoolEnd<D>, PoolShort<D>>
    requires name { blank.name ≡ E.name }
    requires parts { (blank.parts ≡ E.parts) × (blank.parts ≡ workers) }
    requires origin { D.origin desk ∷ [] ≡ E.origin }
    requires finishes { D.finishes desk ≡ E.before }
    ensures origin { IfOk result (λ end. D.origin end.desk ∷ [] ≡ E.origin) }
    ensures finished { IfOk result (λ end. D.finishes end.desk ≡ E.before + end.finished) }
    ensures short_origin { IfErr result (λ short. D.origin short.desk ∷ [] ≡ E.origin) }
    ensures short_finished { IfErr result (λ short. E.before ≤ D.finishes short.desk) }
{
    let (book, mut rest) = blank.open::<E>();
    match open::<D, E>(alloc, workers, &mut rest) {
        Ok(opened) => run_opened(rt, alloc, desk, gate, opened, book, rest),
        Err(OutOfMemory) => Err(PoolShort { desk }),
    }
}

/// Lets the workers work.
fn run_opened<
    R: Threads + Wait + Sync,
    D: Desk + Send,
    G: Gate + Sync,
    E: Opening<D::Origin> + Send + Sync,
>(
    rt: &R,
    alloc: Global,
    desk: D,
    gate: &G,
    opened: Opened<D, E>,
    book: Book<E>,
    rest: Share<E>,
) -> Result<PoolEnd<D>, PoolShort<D>>
    requires origin { D.origin desk ∷ [] ≡ E.origin }
    requires finishes { D.finishes desk ≡ E.before }
    requires place { IsPassOf (arc_value opened.ring) opened.pusher }
    requires new { view opened.pusher ≡ hand true 0 [] }
    requires workers { vec_len opened.workers ≡ E.parts }
    requires book { book.total ≡ 0 }
    requires rest { (rest.parts ≡ 0) × (rest.amount ≡ 0) }
    ensures origin { IfOk result (λ end. D.origin end.desk ∷ [] ≡ E.origin) }
    ensures finished { IfOk result (λ end. D.finishes end.desk ≡ E.before + end.finished) }
    ensures short_origin { IfErr result (λ short. D.origin short.desk ∷ [] ≡ E.origin) }
    ensures short_finished { IfErr result (λ short. E.before ≤ D.finishes short.desk) }
{
    let Opened {
        ring,
        pusher,
        workers,
    } = opened;
    let lock = Mutex::new(Locked::of(desk, ring, pusher, book));
    let ended = thread::map_vec(
        rt,
        workers,
        &|worker: Worker<D, E>| { worker.work(rt, alloc, &lock, gate) },
    );
    let (desk, book) = lock.into_inner().end();
    match ended {
        Ok(workers) => end(desk, book, rest, workers),
        Err(_) => Err(PoolShort { desk }),
    }
}

/// The end of a pool whose workers have ended.
fn end<D: Desk, E: Opening<D::Origin>>(
    desk: D,
    book: Book<E>,
    rest: Share<E>,
    workers: Vec<Worker<D, E>>,
) -> Result<PoolEnd<D>, PoolShort<D>>
    requires origin { D.origin desk ∷ [] ≡ E.origin }
    requires finishes { D.finishes desk ≡ E.before + book.total }
    requires workers { vec_len workers ≡ E.parts }
    requires rest { (rest.parts ≡ 0) × (rest.amount ≡ 0) }
    ensures origin { IfOk result (λ end. D.origin end.desk ∷ [] ≡ E.origin) }
    ensures finished { IfOk result (λ end. D.finishes end.desk ≡ E.before + end.finished) }
    ensures short_origin { IfErr result (λ short. D.origin short.desk ∷ [] ≡ E.origin) }
    ensures short_finished { IfErr result (λ short. E.before ≤ D.finishes short.desk) }
{
    let _all = desk.finished();
    let mut book = book;
    let (finished, is_short) = gather(&mut book, rest, workers);
    if is_short {
        Err(PoolShort { desk })
    } else {
        Ok(PoolEnd { desk, finished })
    }
}

//! A worker: what it holds, and how it takes works and does them. It has the desk only while it takes works or does them.

ghost use Rattle.std.specs.Prelude.{◌≡◌, length};
ghost use Rattle.std.specs.Coded.{Coded-set};
ghost use Rattle.std.specs.Arc.{arc_value};
ghost use Rattle.atomic_table.specs.Seated.{table_id_coded};

use crate::Desk;
use crate::batch::{BATCH, Batch, Prepared};
use crate::locked::{Handed, Locked};
use crate::opening::Opening;
use crate::ring::{Place, Ring, pop};
use crate::ticket::Ticket;
use ale_base::OutOfMemory;
use ale_io::Gate;
use std::alloc::Global;
use std::sync::ledger::Share;
use std::sync::{Arc, Mutex, Wait};

/// A worker, with its hand on the ring and its share of the works that were finished.
pub(crate) struct Worker<D: Desk, E: Opening<D::Origin>> {
    ring: Arc<Ring<D, E>>,
    place: Place<D, E>,
    share: Share<E>,
    /// How many works it finished.
    finished: u64,
    /// Whether memory was wanting.
    short: bool,
    ghost here: { place.table_id ≡ (arc_value ring).table.shared.table_id } by { Coded-set table_id_coded _ _ },
    ghost at_rest: { length place.me.1 ≡ 0 },
    ghost one_part: { share.parts ≡ 1 },
    ghost counted: { share.amount ≡ finished },
}

impl<D: Desk, E: Opening<D::Origin>> Worker<D, E> {
    ghost use Rattle.std.specs.Prelude.{◌≡◌, [], All};
    ghost use Rattle.std.specs.Arc.{arc_value};
    ghost use Rattle.crossbeam_queue.specs.Passes.{IsPassOf};

    /// A worker that has finished nothing.
    pub(crate) fn of(ring: Arc<Ring<D, E>>, place: Place<D, E>, share: Share<E>) -> Worker<D, E>
        requires place { IsPassOf (arc_value ring) place }
        requires parts { share.parts ≡ 1 }
        requires amount { share.amount ≡ 0 }
    {
        Worker {
            ring,
            place,
            share,
            finished: 0,
            short: false,
        }
    }

    /// Takes works and does them, until it finds none. Where memory was wanting it takes no more from the desk, and does
    /// those that are on the ring.
    pub(crate) fn work<R: Wait, G: Gate>(
        self,
        rt: &R,
        alloc: Global,
        lock: &Mutex<Locked<D, E>>,
        gate: &G,
    ) -> Worker<D, E> {
        let mut worker = self;
        let mut batch = Batch::new(alloc);
        let mut is_idle = false;
        for _ in rt.forever() {
            match worker.next(rt) {
                Some(ticket) => {
                    is_idle = false;
                    worker.perform(rt, alloc, lock, gate, ticket, &mut batch);
                }
                None if is_idle => break,
                None => is_idle = worker.ask(rt, alloc, lock, gate, &mut batch),
            }
        }
        worker
    }

    /// The next work on the ring. None only if there was none at one moment of the call.
    fn next<R: Wait>(&mut self, rt: &R) -> Option<Ticket<D, E>> {
        pop(rt, &*self.ring, &mut self.place)
    }

    /// Asks for works at the desk. True where there is none for it.
    fn ask<R: Wait, G: Gate>(
        &mut self,
        rt: &R,
        alloc: Global,
        lock: &Mutex<Locked<D, E>>,
        gate: &G,
        batch: &mut Batch<D, E>,
    ) -> bool
        requires empty { batch.old.items ≡ [] }
        ensures empty { batch.new.items ≡ [] }
    {
        if self.short {
            return true;
        }
        let handed = lock.lock(rt).hand_out(rt);
        match handed {
            Ok(Handed::Pushed) => false,
            Ok(Handed::Own(ticket)) => {
                self.perform(rt, alloc, lock, gate, ticket, batch);
                false
            }
            Ok(Handed::Nothing) => true,
            Err(OutOfMemory) => {
                self.short = true;
                true
            }
        }
    }

    /// Does a work and those that are on the ring, 16 in all at most, in one hold of the lock. It prepares each before it pops
    /// the next, so what is not popped yet is left to the other workers. The batch is empty before and after.
    fn perform<R: Wait, G: Gate>(
        &mut self,
        rt: &R,
        alloc: Global,
        lock: &Mutex<Locked<D, E>>,
        gate: &G,
        first: Ticket<D, E>,
        batch: &mut Batch<D, E>,
    )
        requires empty { batch.old.items ≡ [] }
        ensures empty { batch.new.items ≡ [] }
    {
        self.prepare(rt, alloc, lock, gate, first, batch);
        for _popped in 1..BATCH {
            match self.next(rt) {
                Some(ticket) => self.prepare(rt, alloc, lock, gate, ticket, batch),
                None => break,
            }
        }
        self.act(rt, lock, batch);
    }

    /// Passes the gate with a work and prepares it, both without the desk, and puts it into the batch. A work for which memory
    /// is wanting is dropped.
    fn prepare<R: Wait, G: Gate>(
        &mut self,
        rt: &R,
        alloc: Global,
        lock: &Mutex<Locked<D, E>>,
        gate: &G,
        ticket: Ticket<D, E>,
        batch: &mut Batch<D, E>,
    )
        requires ready { All (λ one. D.is_of one.ready one.work) batch.old.items }
        ensures ready { All (λ one. D.is_of one.ready one.work) batch.new.items }
    {
        let work = ticket.into_work();
        let (system, tid) = D::name(&work);
        gate.pass(system, tid);
        match D::prepare(alloc, &work) {
            Ok(ready) => self.put(rt, lock, Prepared::of(work, ready), batch),
            Err(OutOfMemory) => self.short = true,
        }
    }

    /// Puts a work into the batch. Where there is no memory for its place the batch is done at once, and then this work.
    fn put<R: Wait>(
        &mut self,
        rt: &R,
        lock: &Mutex<Locked<D, E>>,
        one: Prepared<D, E>,
        batch: &mut Batch<D, E>,
    )
        requires one { D.is_of one.ready one.work }
        requires ready { All (λ one. D.is_of one.ready one.work) batch.old.items }
        ensures ready { All (λ one. D.is_of one.ready one.work) batch.new.items }
    {
        if let Err(refused) = batch.push_back(one) {
            self.act(rt, lock, batch);
            self.act_one(rt, lock, refused.value);
        }
    }

    /// Does the works of the batch in one hold of the lock. The batch is empty then.
    fn act<R: Wait>(&mut self, rt: &R, lock: &Mutex<Locked<D, E>>, batch: &mut Batch<D, E>)
        requires ready { All (λ one. D.is_of one.ready one.work) batch.old.items }
        ensures empty { batch.new.items ≡ [] }
    {
        if batch.is_empty() {
            return;
        }
        let before = self.finished;
        let (finished, was_short) = lock.lock(rt).act_all(batch, &mut self.share);
        self.finished = before + finished;
        self.short |= was_short;
    }

    /// Does one work in a hold of the lock.
    fn act_one<R: Wait>(&mut self, rt: &R, lock: &Mutex<Locked<D, E>>, one: Prepared<D, E>)
        requires { D.is_of one.ready one.work }
    {
        let (finished, acted) = lock.lock(rt).act(one, &mut self.share);
        self.finished += finished;
        self.short |= acted.is_err();
    }

    /// Its share, how many works it finished, and whether memory was wanting.
    pub(crate) fn end(self) -> (Share<E>, u64, bool)
        ensures parts { result.0.parts ≡ 1 }
        ensures amount { result.0.amount ≡ result.1 }
    {
        let Worker {
            ring: _,
            place: _,
            share,
            finished,
            short,
        } = self;
        (share, finished, short)
    }
}

impl<D: Desk, E: Opening<D::Origin>> Drop for Worker<D, E> {
    fn drop(self) {
        let Worker {
            ring: _,
            place: _,
            share: _,
            finished: _,
            short: _,
        } = self;
    }
}

//! The desk under its lock, beside the hand that pushes. No work is prepared here.

ghost use Rattle.std.specs.Prelude.{◌≡◌, ◌+◌, ◌∷◌, [], true, length};
ghost use Rattle.std.specs.Coded.{Coded-set, coded_list};
ghost use Rattle.std.specs.Arc.{arc_value};
ghost use Rattle.atomic_table.specs.Seated.{table_id_coded};
ghost use Rattle.crossbeam_queue.specs.Passes.{view};

use crate::Desk;
use crate::batch::{BATCH, Batch, Prepared};
use crate::opening::Opening;
use crate::ring::{Place, Ring, push};
use crate::ticket::Ticket;
use ale_base::OutOfMemory;
use std::marker::PhantomData;
use std::sync::ledger::{Book, Share};
use std::sync::{Arc, Wait};

/// The desk under its lock: the ring that it hands works out on, the hand that pushes, and the book of the works that were
/// finished.
pub(crate) struct Locked<D: Desk, E: Opening<D::Origin>> {
    desk: D,
    ring: Arc<Ring<D, E>>,
    pusher: Place<D, E>,
    /// How many tickets were pushed.
    count: u64,
    book: Book<E>,
    origin: PhantomData<D::Origin>,
    ghost same: { D.origin desk ∷ [] ≡ E.origin } by { Coded-set (coded_list D.Origin.code) _ _ },
    ghost finishes: { D.finishes desk ≡ E.before + book.total },
    ghost here: { pusher.table_id ≡ (arc_value ring).table.shared.table_id } by { Coded-set table_id_coded _ _ },
    ghost at_rest: { length pusher.me.1 ≡ 0 },
    ghost pushes: { (view pusher).pushes ≡ true },
    ghost counted: { (view pusher).count ≡ count },
}

/// What was handed out.
pub(crate) enum Handed<D: Desk, E: Opening<D::Origin>> {
    /// Works were pushed.
    Pushed,
    /// One is for the worker that asked: the ring had no room for it, or there is no number left.
    Own(Ticket<D, E>),
    /// The desk is idle.
    Nothing,
}

impl<D: Desk, E: Opening<D::Origin>> Locked<D, E> {
    ghost use Rattle.std.specs.Prelude.{◌≡◌, ◌≢◌, ◌+◌, ◌^◌, ◌<◌, ◌∷◌, [], true, All, IfOk};
    ghost use Rattle.dialog_pool.specs.declared.locked.Handed.TheVariants.{Nothing};
    ghost use Rattle.std.specs.Arc.{arc_value};
    ghost use Rattle.crossbeam_queue.specs.Passes.{view, IsPassOf};
    ghost use Rattle.dialog_pool.specs.Tickets.{hand};

    /// The desk comes under its lock, before any work was handed out.
    pub(crate) fn of(
        desk: D,
        ring: Arc<Ring<D, E>>,
        pusher: Place<D, E>,
        book: Book<E>,
    ) -> Locked<D, E>
        requires origin { D.origin desk ∷ [] ≡ E.origin }
        requires finishes { D.finishes desk ≡ E.before }
        requires place { IsPassOf (arc_value ring) pusher }
        requires new { view pusher ≡ hand true 0 [] }
        requires book { book.total ≡ 0 }
    {
        Locked {
            desk,
            ring,
            pusher,
            count: 0,
            book,
            origin: PhantomData,
        }
    }

    /// Takes works from the desk, 16 at most, and pushes them. It answers that the desk is idle only where it was.
    pub(crate) fn hand_out<R: Wait>(&mut self, rt: &R) -> Result<Handed<D, E>, OutOfMemory>
        ensures idle { IfOk result (λ handed. handed ≡ Nothing → D.is_idle self.old.desk) }
    {
        for taken in 0..BATCH {
            match self.hand_out_one(rt)? {
                Handed::Pushed => {}
                Handed::Own(ticket) => return Ok(Handed::Own(ticket)),
                Handed::Nothing if taken == 0 => return Ok(Handed::Nothing),
                Handed::Nothing => return Ok(Handed::Pushed),
            }
        }
        Ok(Handed::Pushed)
    }

    /// Takes a work from the desk, and pushes it.
    fn hand_out_one<R: Wait>(&mut self, rt: &R) -> Result<Handed<D, E>, OutOfMemory>
        ensures idle { IfOk result (λ handed. handed ≡ Nothing → D.is_idle self.old.desk) }
    {
        let Some(work) = self.desk.take()? else {
            return Ok(Handed::Nothing);
        };
        Ok(self.push(rt, work))
    }

    /// Pushes a work under the next number.
    fn push<R: Wait>(&mut self, rt: &R, work: D::Work) -> Handed<D, E>
        requires { D.origin_of work ∷ [] ≡ E.origin }
        ensures { result ≢ Nothing }
    {
        let ticket = Ticket::of(self.count, work);
        if self.count == u64::MAX {
            return Handed::Own(ticket);
        }
        match push(rt, &*self.ring, &mut self.pusher, ticket) {
            Ok(()) => {
                self.count += 1;
                Handed::Pushed
            }
            Err(ticket) => Handed::Own(ticket),
        }
    }

    /// Does the works of a batch in their order, until it is empty, and adds what they finished to the worker's share. True if
    /// memory was wanting for one of them.
    pub(crate) fn act_all(&mut self, batch: &mut Batch<D, E>, share: &mut Share<E>) -> (u64, bool)
        requires ready { All (λ one. D.is_of one.ready one.work) batch.old.items }
        requires part { 0 < share.old.parts }
        requires fits { share.old.amount < 2 ^ 64 }
        ensures empty { batch.new.items ≡ [] }
        ensures amount { share.new.amount ≡ share.old.amount + result.0 }
        ensures fits { share.new.amount < 2 ^ 64 }
        ensures parts { share.new.parts ≡ share.old.parts }
    {
        let mut finished = 0;
        let mut is_short = false;
        while let Some(one) = batch.pop_front() {
            let (by_it, acted) = self.act(one, share);
            finished += by_it;
            is_short |= acted.is_err();
        }
        (finished, is_short)
    }

    /// Does a work whole, and adds what it finished to the worker's share.
    pub(crate) fn act(
        &mut self,
        one: Prepared<D, E>,
        share: &mut Share<E>,
    ) -> (u64, Result<(), OutOfMemory>)
        requires ready { D.is_of one.ready one.work }
        requires part { 0 < share.old.parts }
        ensures amount { share.new.amount ≡ share.old.amount + result.0 }
        ensures fits { share.new.amount < 2 ^ 64 }
        ensures parts { share.new.parts ≡ share.old.parts }
    {
        let (work, ready) = one.into_parts();
        let before = self.desk.finished();
        let acted = self.desk.act(work, ready);
        let finished = self.desk.finished() - before;
        self.book.add(share, finished);
        self.book.audit(share);
        (finished, acted)
    }

    /// The desk, and the book.
    pub(crate) fn end(self) -> (D, Book<E>)
        ensures origin { D.origin result.0 ∷ [] ≡ E.origin }
        ensures finishes { D.finishes result.0 ≡ E.before + result.1.total }
    {
        let Locked {
            desk,
            ring: _,
            pusher: _,
            count: _,
            book,
            origin: _,
        } = self;
        (desk, book)
    }
}

//! Works that are prepared, on their way from a worker to the desk.

ghost use Rattle.std.specs.Prelude.{◌≡◌, ◌∷◌, []};
ghost use Rattle.std.specs.Coded.{Coded-set, coded_list};

use crate::Desk;
use crate::opening::Opening;
use std::collections::VecDeque;
use std::marker::PhantomData;

/// How many works a worker does in one hold of the lock at most, and how many it hands out in one.
pub(crate) const BATCH: u8 = 16;

/// Works that a worker has prepared, in the order in which it popped them.
pub(crate) type Batch<D, E> = VecDeque<Prepared<D, E>>;

/// A work of the pool's desk, with a ready. Each call that is given one asks that the ready is of that work.
pub(crate) struct Prepared<D: Desk, E: Opening<D::Origin>> {
    work: D::Work,
    ready: D::Ready,
    opening: PhantomData<E>,
    origin: PhantomData<D::Origin>,
    ghost same: { D.origin_of work ∷ [] ≡ E.origin } by { Coded-set (coded_list D.Origin.code) _ _ },
}

impl<D: Desk, E: Opening<D::Origin>> Prepared<D, E> {
    ghost use Rattle.std.specs.Prelude.{◌≡◌, ◌∷◌, []};

    /// A work with a ready.
    pub(crate) fn of(work: D::Work, ready: D::Ready) -> Prepared<D, E>
        requires { D.origin_of work ∷ [] ≡ E.origin }
        ensures work { result.work ≡ work }
        ensures ready { result.ready ≡ ready }
    {
        Prepared {
            work,
            ready,
            opening: PhantomData,
            origin: PhantomData,
        }
    }

    /// The work and the ready.
    pub(crate) fn into_parts(self) -> (D::Work, D::Ready)
        ensures work { result.0 ≡ self.work }
        ensures ready { result.1 ≡ self.ready }
        ensures same { D.origin_of result.0 ∷ [] ≡ E.origin }
    {
        let Prepared {
            work,
            ready,
            opening: _,
            origin: _,
        } = self;
        (work, ready)
    }
}

impl<D: Desk, E: Opening<D::Origin>> Drop for Prepared<D, E> {
    fn drop(self) {
        let Prepared {
            work: _,
            ready: _,
            opening: _,
            origin: _,
        } = self;
    }
}

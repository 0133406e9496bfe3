//! Works on their way to a worker.

ghost use Rattle.std.specs.Prelude.{◌≡◌, ◌∷◌, []};
ghost use Rattle.std.specs.Coded.{Coded-set, coded_list};

use crate::Desk;
use crate::opening::Opening;
use std::marker::PhantomData;

/// A work of the pool's desk, with its number: how many tickets were pushed before it.
pub(crate) struct Ticket<D: Desk, E: Opening<D::Origin>> {
    number: u64,
    work: D::Work,
    opening: PhantomData<E>,
    origin: PhantomData<D::Origin>,
    ghost same: { D.origin_of work ∷ [] ≡ E.origin } by { Coded-set (coded_list D.Origin.code) _ _ },
}

impl<D: Desk, E: Opening<D::Origin>> Ticket<D, E> {
    ghost use Rattle.std.specs.Prelude.{◌≡◌, ◌∷◌, []};

    /// A ticket of this number for a work.
    pub(crate) fn of(number: u64, work: D::Work) -> Ticket<D, E>
        requires { D.origin_of work ∷ [] ≡ E.origin }
        ensures number { result.number ≡ number }
        ensures work { result.work ≡ work }
    {
        Ticket {
            number,
            work,
            opening: PhantomData,
            origin: PhantomData,
        }
    }

    /// The work.
    pub(crate) fn into_work(self) -> D::Work
        ensures work { result ≡ self.work }
        ensures same { D.origin_of result ∷ [] ≡ E.origin }
    {
        let Ticket {
            number: _,
            work,
            opening: _,
            origin: _,
        } = self;
        work
    }
}

impl<D: Desk, E: Opening<D::Origin>> Drop for Ticket<D, E> {
    fn drop(self) {
        let Ticket {
            number: _,
            work: _,
            opening: _,
            origin: _,
        } = self;
    }
}

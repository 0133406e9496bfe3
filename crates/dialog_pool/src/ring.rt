//! The ring on which works go to the workers, and the law that all its calls keep.

ghost use Rattle.std.specs.Prelude.{◌≡◌, true, false, [], IfOk, MatchOption, MatchResult};
ghost use Rattle.crossbeam_queue.specs.Passes.{view, IsPassOf, IsSamePass};
ghost use Rattle.dialog_pool.specs.Tickets.{hand, pushed_one, popped_one};

use crate::Desk;
use crate::opening::Opening;
use crate::ticket::Ticket;
use ale_base::OutOfMemory;
use crossbeam_queue::protocol::{Lesson, Outcome, Protocol, Split};
use crossbeam_queue::{Pass, RuledArrayQueue};
use std::alloc::Global;
use std::collections::LinkedList;
use std::sync::Wait;

/// What one hand on the ring has done: whether it pushes, how many tickets it has pushed, and the numbers of those that
/// it has popped. It exists in proofs alone: no value of it is made.
pub struct Hand {
    pub pushes: bool,
    pub count: u64,
    pub popped: LinkedList<u64>,
}

/// The law of the ring.
pub(crate) struct Law;

impl<D: Desk, E: Opening<D::Origin>> Protocol<Ticket<D, E>, Hand> for Law {
    ghost use Rattle.std.specs.Prelude.{true, [], map};
    ghost use Rattle.dialog_pool.specs.Tickets.{hand, AreOnce};

    ghost holds = { λ tickets hands. AreOnce (map (λ ticket. ticket.number) tickets) hands };

    ghost first = { hand true 0 [] };
}

/// A push, by the hand that pushes.
struct Pushed;

impl<D: Desk, E: Opening<D::Origin>> Outcome<Ticket<D, E>, Hand> for Pushed {
    ghost use Rattle.std.specs.Prelude.{◌≡◌};
    ghost use Rattle.dialog_pool.specs.Tickets.{pushed_one};

    ghost then = { λ before ticket after. after ≡ pushed_one before };
}

impl<D: Desk, E: Opening<D::Origin>> Lesson<Ticket<D, E>, Hand> for Pushed {
    ghost use Rattle.std.specs.Prelude.{⊤};

    ghost fact = { λ before tickets. ⊤ };
}

/// A pop, by any hand.
struct Popped;

impl<D: Desk, E: Opening<D::Origin>> Outcome<Ticket<D, E>, Hand> for Popped {
    ghost use Rattle.std.specs.Prelude.{◌≡◌};
    ghost use Rattle.dialog_pool.specs.Tickets.{popped_one};

    ghost then = { λ before ticket after. after ≡ popped_one before ticket.number };
}

impl<D: Desk, E: Opening<D::Origin>> Lesson<Ticket<D, E>, Hand> for Popped {
    ghost use Rattle.std.specs.Prelude.{⊤};

    ghost fact = { λ before tickets. ⊤ };
}

/// A hand that does not push is made.
struct NewHand;

impl Split<Hand> for NewHand {
    ghost use Rattle.std.specs.Prelude.{false, []};
    ghost use Rattle.dialog_pool.specs.Tickets.{hand};

    ghost left = { λ before. before };

    ghost right = { λ before. hand false 0 [] };
}

/// The ring.
pub(crate) type Ring<D, E> = RuledArrayQueue<Ticket<D, E>, Hand, Law>;

/// A hand on the ring. It has no bytes.
pub(crate) type Place<D, E> = Pass<Ticket<D, E>, Hand>;

/// How many tickets the ring has room for.
const ROOM: usize = 256;

/// A ring with no ticket, and the hand that pushes.
pub(crate) fn new_ring<D: Desk, E: Opening<D::Origin>>(
    alloc: Global,
) -> Result<(Ring<D, E>, Place<D, E>), OutOfMemory>
    ensures { IfOk result (λ made. IsPassOf made.0 made.1 × (view made.1 ≡ hand true 0 [])) }
{
    Ok(Ring::<D, E>::ruled(alloc, ROOM)?)
}

/// A new hand, which does not push.
pub(crate) fn new_hand<D: Desk, E: Opening<D::Origin>>(
    ring: &Ring<D, E>,
    place: &mut Place<D, E>,
) -> Place<D, E>
    requires { IsPassOf ring.now place.old }
    ensures old { IsSamePass place.old place.new × (view place.new ≡ view place.old) }
    ensures new { IsPassOf ring.now result × (view result ≡ hand false 0 []) }
{
    ring.another::<NewHand>(place)
}

/// Pushes a ticket, by the hand that pushes. It comes back only if the ring was full at one moment of the call.
pub(crate) fn push<R: Wait, D: Desk, E: Opening<D::Origin>>(
    rt: &R,
    ring: &Ring<D, E>,
    place: &mut Place<D, E>,
    ticket: Ticket<D, E>,
) -> Result<(), Ticket<D, E>>
    requires place { IsPassOf ring.now place.old }
    requires pushes { (view place.old).pushes ≡ true }
    requires number { ticket.number ≡ (view place.old).count }
    ensures place { IsSamePass place.old place.new }
    ensures pushed { MatchResult result (λ _. view place.new ≡ pushed_one (view place.old))
        (λ back. (back ≡ ticket) × (view place.new ≡ view place.old)) }
{
    ring.push_as::<Pushed, R>(rt, place, ticket)
}

/// Pops the ticket at the front. None only if the ring was empty at one moment of the call.
pub(crate) fn pop<R: Wait, D: Desk, E: Opening<D::Origin>>(
    rt: &R,
    ring: &Ring<D, E>,
    place: &mut Place<D, E>,
) -> Option<Ticket<D, E>>
    requires { IsPassOf ring.now place.old }
    ensures place { IsSamePass place.old place.new }
    ensures popped { MatchOption result (view place.new ≡ view place.old)
        (λ ticket. view place.new ≡ popped_one (view place.old) ticket.number) }
{
    ring.pop_as::<Popped, R>(rt, place)
}

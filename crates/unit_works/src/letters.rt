//! What letters let through.

ghost use Rattle.std.specs.Prelude.{◌≡◌};
ghost use Rattle.unit_works.specs.Events.{arrives_under, falls_under, is_answered_under, is_confirmed_under, is_sent_under, told_of};
ghost use Rattle.unit_works.specs.steps.Arriving.{is_twice};

use crate::Letter;
use unit_landscape::Reply;

/// Whether the request arrives.
pub(crate) fn arrives_under(letter: Letter) -> bool
    ensures { result ≡ arrives_under letter }
{
    match letter {
        Letter::LostRequest => false,
        Letter::Whole
        | Letter::LostReply
        | Letter::Twice
        | Letter::LostConfirmation
        | Letter::ReceiverFalls => true,
    }
}

/// Whether the request arrives twice.
pub(crate) fn is_twice(letter: Letter) -> bool
    ensures { result ≡ is_twice letter }
{
    match letter {
        Letter::Twice => true,
        Letter::Whole
        | Letter::LostRequest
        | Letter::LostReply
        | Letter::LostConfirmation
        | Letter::ReceiverFalls => false,
    }
}

/// Whether the reply comes.
fn is_answered_under(letter: Letter) -> bool
    ensures { result ≡ is_answered_under letter }
{
    match letter {
        Letter::LostRequest | Letter::LostReply | Letter::ReceiverFalls => false,
        Letter::Whole | Letter::Twice | Letter::LostConfirmation => true,
    }
}

/// Whether the confirmation is sent.
pub(crate) fn is_confirmed_under(letter: Letter) -> bool
    ensures { result ≡ is_confirmed_under letter }
{
    match letter {
        Letter::LostRequest
        | Letter::LostReply
        | Letter::LostConfirmation
        | Letter::ReceiverFalls => false,
        Letter::Whole | Letter::Twice => true,
    }
}

/// Whether the confirmation of a unit that was done before is sent.
pub(crate) fn is_sent_under(letter: Letter) -> bool
    ensures { result ≡ is_sent_under letter }
{
    match letter {
        Letter::LostConfirmation => false,
        Letter::Whole
        | Letter::LostRequest
        | Letter::LostReply
        | Letter::Twice
        | Letter::ReceiverFalls => true,
    }
}

/// Whether the receiver falls once it has handled the request.
pub(crate) fn falls_under(letter: Letter) -> bool
    ensures { result ≡ falls_under letter }
{
    match letter {
        Letter::ReceiverFalls => true,
        Letter::Whole
        | Letter::LostRequest
        | Letter::LostReply
        | Letter::Twice
        | Letter::LostConfirmation => false,
    }
}

/// What is told of an answer.
pub(crate) fn told_under(letter: Letter, given: Reply) -> Reply
    ensures { result ≡ told_of letter given }
{
    if is_answered_under(letter) {
        given
    } else {
        Reply::Lost
    }
}

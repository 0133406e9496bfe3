//! The letters, and the bytes that say them.

ghost use Rattle.std.specs.Prelude.{◌≡◌};
ghost use Rattle.unit_works.specs.Wires.{letter_said};

/// What becomes of a shipment of a unit.
#[derive(Clone, Copy, PartialEq, Eq)]
pub enum Letter {
    /// All goes through.
    Whole,
    /// The request is lost.
    LostRequest,
    /// The request arrives, and the reply is lost.
    LostReply,
    /// The request arrives twice: the second right after the first, before a run of it is finished. The second answer is dropped.
    Twice,
    /// Request and reply go through, and the confirmation that follows is lost.
    LostConfirmation,
    /// The request arrives, and the receiver falls right after it has handled it: nothing comes back, and the claim is gone. A receiver that
    /// is down already falls no more.
    ReceiverFalls,
}

/// The letter that a byte says: `o`, `q`, `r`, `t`, `c` or `f`. None exactly where it is another byte.
pub(crate) fn letter_of(byte: u8) -> Option<Letter>
    ensures { result ≡ letter_said byte }
{
    match byte {
        b'o' => Some(Letter::Whole),
        b'q' => Some(Letter::LostRequest),
        b'r' => Some(Letter::LostReply),
        b't' => Some(Letter::Twice),
        b'c' => Some(Letter::LostConfirmation),
        b'f' => Some(Letter::ReceiverFalls),
        _ => None,
    }
}

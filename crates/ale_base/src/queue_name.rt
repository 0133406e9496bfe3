//! Names of queues, and why bytes are none.

ghost use Rattle.std.specs.Prelude.{◌≤◌, length, All, MatchOption};
ghost use Rattle.ale_base.specs.QueueName.{IsNameByte, IsFirstOther};

use crate::Fixed;
use std::marker::Model;
use thiserror::Error;

/// The name of a queue: 1 to 24 bytes, each from 33 to 126, so that it has no blank. Contracts see its bytes.
#[derive(Clone, Copy, Debug, PartialEq, Eq)]
pub struct QueueName {
    text: Fixed<24>,
}

impl Model for QueueName {
    ghost use Rattle.std.specs.Prelude.{ℕ, List};
    ghost use Rattle.ale_base.specs.QueueName.{IsQueueName};

    ghost Value = { List ℕ };

    ghost view = { λ name. name.text };

    ghost invariant = { λ name. IsQueueName name.text };

    ghost inverse = { λ bytes. record { text = bytes } };
}

/// Why bytes are no name of a queue.
#[derive(Clone, Copy, Debug, PartialEq, Eq, Error)]
pub enum NameFault {
    /// There is no byte.
    #[error("empty")]
    Empty,
    /// There are more than 24 bytes.
    #[error("too long")]
    TooLong,
    /// The byte at this place, counted from 0, is not one from 33 to 126.
    #[error("a byte that no name has, at {0}")]
    BadByte(u32),
}

impl QueueName {
    ghost use Rattle.std.specs.Prelude.{◌≡◌, IsOk, IfOk, IfErr};
    ghost use Rattle.ale_base.specs.Blanks.{padded};
    ghost use Rattle.ale_base.specs.QueueName.{IsQueueName, HasFault};

    /// The most bytes of a name.
    pub const MAX_LEN: usize = 24;

    /// The name with these bytes. The faults, in this order: `Empty` at no bytes, `TooLong` over 24 bytes, and
    /// `BadByte` with the place of the first byte that is not from 33 to 126.
    pub fn of(bytes: &[u8]) -> Result<QueueName, NameFault>
        ensures name { IfOk result (λ name. (name ≡ bytes.now) × IsQueueName bytes.now) }
        ensures first_fault { IfErr result (HasFault bytes.now) }
        ensures complete { IsQueueName bytes.now → IsOk result }
    {
        if bytes.is_empty() {
            return Err(NameFault::Empty);
        }
        if bytes.len() > QueueName::MAX_LEN {
            return Err(NameFault::TooLong);
        }
        if let Some(place) = first_other_byte(bytes) {
            return Err(NameFault::BadByte(place));
        }
        match Fixed::of(bytes) {
            Some(text) => Ok(QueueName { text }),
            // The length was looked at.
            None => unreachable!(),
        }
    }

    /// The bytes of the name.
    pub fn bytes(&self) -> &[u8]
        ensures bytes { result.now ≡ self.now }
        ensures name { IsQueueName self.now }
    {
        self.text.trimmed()
    }

    /// The name in a field: its bytes, and blanks behind them up to 24.
    pub fn field(&self) -> [u8; 24]
        ensures field { result ≡ padded 24 self.now }
        ensures name { IsQueueName self.now }
    {
        self.text.field()
    }
}

/// The place of the first byte that no name has.
fn first_other_byte(bytes: &[u8]) -> Option<u32>
    requires { length bytes.now ≤ 24 }
    ensures { MatchOption result (All IsNameByte bytes.now) (IsFirstOther bytes.now) }
{
    for (place, byte) in bytes.iter().enumerate() {
        if *byte < 33 || *byte > 126 {
            return Some(place as u32);
        }
    }
    None
}

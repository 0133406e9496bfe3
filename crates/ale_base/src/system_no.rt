//! Numbers of systems.

ghost use Rattle.std.specs.Prelude.{◌≡◌, ◌<◌, ◌≤◌, ◌⊎◌, ◌↔◌, IsNone, IfSome};

use std::marker::Model;

/// The number of a system, from 1 to 16. Contracts see the number.
#[derive(Clone, Copy, Debug, PartialEq, Eq, PartialOrd, Ord)]
pub struct SystemNo {
    number: u8,
}

impl Model for SystemNo {
    ghost use Rattle.std.specs.Prelude.{ℕ, ◌≤◌};

    ghost Value = { ℕ };

    ghost view = { λ s. s.number };

    ghost invariant = { λ s. (1 ≤ s.number) × (s.number ≤ 16) };

    ghost inverse = { λ n. record { number = n } };
}

impl SystemNo {
    /// The greatest number, and so the most systems of a landscape.
    pub const MAX: u8 = 16;

    /// The system of this number. None exactly where the number is 0 or over 16.
    pub fn of(n: u8) -> Option<SystemNo>
        ensures found { IfSome result (λ s. s ≡ n) }
        ensures none { IsNone result ↔ ((n ≡ 0) ⊎ (16 < n)) }
    {
        if n == 0 || n > SystemNo::MAX {
            return None;
        }
        Some(SystemNo { number: n })
    }

    /// The number, from 1 to 16.
    pub fn get(self) -> u8
        ensures number { result ≡ self }
        ensures least { 1 ≤ self }
        ensures most { self ≤ 16 }
    {
        self.number
    }
}

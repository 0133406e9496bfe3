//! Numbers of segment types.

use std::marker::Model;

/// The number of a segment type: its place from 0 among the types of a landscape. Contracts see the number.
#[derive(Clone, Copy, PartialEq, Eq)]
pub struct TypeNo(pub u16);

impl Model for TypeNo {
    ghost use Rattle.std.specs.Prelude.{ℕ};

    ghost Value = { ℕ };

    ghost view = { λ t. t.0 };

    ghost inverse = { λ n. record { 0 = n } };
}

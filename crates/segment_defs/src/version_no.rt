//! Numbers of definitions.

use std::marker::Model;

/// The number of a definition: its place from 0 among those of its segment type, the oldest first. Contracts see the
/// number.
#[derive(Clone, Copy, PartialEq, Eq)]
pub struct VersionNo(pub u8);

impl Model for VersionNo {
    ghost use Rattle.std.specs.Prelude.{ℕ};

    ghost Value = { ℕ };

    ghost view = { λ v. v.0 };

    ghost inverse = { λ n. record { 0 = n } };
}

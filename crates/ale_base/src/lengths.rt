//! Lengths and places as faults tell them.

ghost use Rattle.std.specs.Prelude.{◌≡◌};
ghost use Rattle.ale_base.specs.Text.{told_length};

/// A length, or the number of a place, as a fault tells it: in 32 bits, whose greatest number stands for all larger
/// ones.
pub fn told_length(length: usize) -> u32
    ensures { result ≡ told_length length }
{
    length.min(u32::MAX as usize) as u32
}

//! Whether two units are the same.

ghost use Rattle.std.specs.Prelude.{◌≡◌};
ghost use Rattle.unit_core.specs.SameUnit.{is_same_unit};

use crate::AleUnit;

/// Whether two units are the same, byte for byte.
pub fn is_same_unit(a: &AleUnit, b: &AleUnit) -> bool
    ensures { result ≡ is_same_unit a.now b.now }
{
    *a == *b
}

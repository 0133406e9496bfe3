//! What a pool opened with, as its parts know it.

use std::marker::Brand;
use std::sync::ledger::Ledger;

/// What a pool opened with. Each call picks it, and all parts of the pool carry the same one in their types.
pub(crate) trait Opening<O>: Ledger {
    ghost use Rattle.std.specs.Prelude.{ℕ, List};

    // The origin of the desk that was handed in, as a list of one.
    ghost origin: { List O };

    // How many works that desk had finished.
    ghost before: { ℕ };
}

impl<O> Opening<O> for Brand {
    ghost use Rattle.std.specs.Prelude.{[]};

    ghost origin = { [] };

    ghost before = { 0 };
}

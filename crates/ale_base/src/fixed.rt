//! Texts in fields of a fixed width.

ghost use Rattle.std.specs.Prelude.{◌≡◌, ◌<◌, ◌≤◌, ◌↔◌, length, IsNone, IfSome};
ghost use Rattle.ale_base.specs.Blanks.{trimmed, padded};

use crate::blanks::trimmed;
use std::marker::Model;

/// A text of at most `N` bytes in a field of `N` bytes, padded with blanks. Contracts see the text without the
/// blanks at its end.
#[derive(Clone, Copy, Debug)]
pub struct Fixed<const N: usize> {
    bytes: [u8; N],
}

impl<const N: usize> Model for Fixed<N> {
    ghost use Rattle.std.specs.Prelude.{ℕ, List, ◌≡◌, length};
    ghost use Rattle.ale_base.specs.Blanks.{trimmed, padded};
    ghost use Rattle.ale_base.specs.TrimmedLemmas.{padded-trimmed_at};
    ghost use Rattle.std.proofs.Common.{ap};

    ghost Value = { List ℕ };

    ghost view = { λ f. trimmed f.bytes };

    ghost invariant = { λ f. length f.bytes ≡ N };

    ghost inverse = { λ text. record { bytes = padded N text } };

    ghost inverse_ok = { λ f fits. ap (λ (bytes : List ℕ). record { bytes = bytes }) (padded-trimmed_at N f.bytes fits) };
}

impl<const N: usize> Fixed<N> {
    /// The text of these bytes. None exactly where they are more than `N`.
    pub fn of(bytes: &[u8]) -> Option<Fixed<N>>
        ensures text { IfSome result (λ f. f ≡ trimmed bytes.now) }
        ensures none { IsNone result ↔ (N < length bytes.now) }
    {
        if bytes.len() > N {
            return None;
        }
        let mut padded = [b' '; N];
        let (front, _) = padded.split_at_mut(bytes.len());
        front.copy_from_slice(bytes);
        Some(Fixed { bytes: padded })
    }

    /// The text, without blanks at its end.
    pub fn trimmed(&self) -> &[u8]
        ensures text { result.now ≡ self.now }
        ensures trimmed { trimmed self.now ≡ self.now }
        ensures fits { length self.now ≤ N }
    {
        trimmed(&self.bytes)
    }

    /// The field: the text, and blanks behind it up to `N` bytes.
    pub fn field(&self) -> [u8; N]
        ensures { result ≡ padded N self.now }
    {
        self.bytes
    }
}

impl<const N: usize> PartialEq for Fixed<N> {
    ghost use Rattle.std.specs.Prelude.{nat_eq};
    ghost use Rattle.std.specs.Cmp.Lexicographic.{pointwise};
    ghost use Rattle.std.specs.Cmp.Rules.{comparing};
    ghost use Rattle.std.proofs.Common.{rules};

    ghost eq = { pointwise nat_eq };

    ghost laws = { Prim.search (comparing, rules) };

    fn eq(&self, other: &Fixed<N>) -> bool {
        self.trimmed() == other.trimmed()
    }
}

impl<const N: usize> Eq for Fixed<N> {
    ghost use Rattle.std.specs.Cmp.Rules.{comparing};
    ghost use Rattle.std.proofs.Common.{rules};

    ghost laws = { Prim.search (comparing, rules) };
}

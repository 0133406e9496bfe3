//! Lists behind their counts: values of one kind, one after another.

ghost use Rattle.std.specs.Prelude.{◌≡◌, [], ◌++◌, OnOk};
ghost use Rattle.std.specs.List.{AllByRecursion, flat_map};
ghost use Rattle.unit_codec.specs.Reading.{Takes};
ghost use Rattle.unit_codec.specs.Kind.{listed_at, PutsAll};

use crate::fault::FieldFault;
use crate::unread::Unread;
use ale_base::{Items, OutOfMemory};
use std::alloc::Global;

/// A field that stands in lists.
pub(crate) trait Listed: Drop {
    ghost use Rattle.std.specs.Prelude.{◌≡◌, Bool, List, OnOk};
    ghost use Rattle.unit_codec.specs.Reading.{Takes};
    ghost use Rattle.unit_codec.specs.Kind.{Kind, Puts};

    // The kind of field.
    ghost kind: { Kind Self };

    // Whether a value may stand behind others.
    ghost follows: { List Self → Self → Bool };

    // What a value must meet to have a spelling, beside what its type keeps.
    ghost needs: { Self → Type 0 };

    /// Reads one from the front.
    fn take(alloc: Global, from: &mut Unread<'_>) -> Result<Self, FieldFault>
        ensures { Takes (λ x. x) result from.new (kind.read from.old) };

    /// Whether this one may stand behind others.
    fn follows(&self, front: &[Self]) -> bool
        ensures { result ≡ follows front.now self.now };

    /// Appends this one.
    fn put(&self, into: &mut Vec<u8>) -> Result<(), OutOfMemory>
        requires { needs self.now }
        ensures { OnOk result (Puts kind self.now into.old.items into.new.items) };
}

/// Reads so many values.
#[tactic(auto, unfolding(crate::specs::Kind::listed_at))]
pub(crate) fn take_listed<T: Listed>(
    alloc: Global,
    from: &mut Unread<'_>,
    count: u32,
) -> Result<Items<T>, FieldFault>
    ensures { Takes (λ xs. xs) result from.new (listed_at T.kind T.follows count [] from.old) }
{
    // Most lists have one value, which takes the room for one.
    let mut taken = Items::from_vec(Vec::with_capacity(alloc, count.min(1) as usize)?);
    for _ in 0..count {
        let left = from.left();
        let next = T::take(alloc, from)?;
        if !next.follows(taken.as_slice()) {
            return Err(FieldFault::Bad(left));
        }
        taken.push(next)?;
    }
    Ok(taken)
}

/// Appends values, one after another.
pub(crate) fn put_listed<T: Listed>(into: &mut Vec<u8>, values: &[T]) -> Result<(), OutOfMemory>
    requires { AllByRecursion T.needs values.now }
    ensures { OnOk result (PutsAll T.kind values.now into.old.items into.new.items) }
{
    for value in values {
        value.put(into)?;
    }
    Ok(())
}

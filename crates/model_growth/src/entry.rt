//! What an entry of a model's list is, and which entries of an old model a new one keeps.

ghost use Rattle.std.specs.Prelude.{◌≡◌, false, slice_get};
ghost use Rattle.std.specs.Cmp.Lexicographic.{pointwise};
ghost use Rattle.std.specs.List.{list_all, list_any, zip};
ghost use Rattle.std.specs.Option.{option_map_or};
ghost use Rattle.model_growth.specs.Growth.{first_lost};

use ale_base::Items;
use dist_model::Lists;

/// An entry of a list of a model.
pub(crate) trait Entry {
    ghost use Rattle.std.specs.Prelude.{◌≡◌, Bool};
    ghost use Rattle.dist_model.specs.declared.lists.Lists.{Lists};

    // Whether an entry of a new model keeps one of an old model.
    ghost keeps: { Lists → Lists → Self → Self → Bool };

    /// Whether another entry, of a new model, keeps this one, of an old model.
    fn is_kept(&self, old: &Lists, other: &Self, new: &Lists) -> bool
        ensures { result ≡ keeps old.now new.now self.now other.now };
}

/// Whether each of some entries is kept by the one at its place among others, which are as many.
pub(crate) fn keep_all<E: Entry>(
    old: &Lists,
    new: &Lists,
    entries: &Items<E>,
    others: &Items<E>,
) -> bool
    ensures { result ≡ pointwise (E.keeps old.now new.now) entries.now others.now }
{
    entries.len() == others.len() && keep_in_pairs(old, new, entries, others)
}

fn keep_in_pairs<E: Entry>(old: &Lists, new: &Lists, entries: &Items<E>, others: &Items<E>) -> bool
    ensures { result ≡ list_all (λ pair. E.keeps old.now new.now pair.0 pair.1) (zip entries.now others.now) }
{
    entries
        .iter()
        .zip(others.iter())
        .all(|(entry, other)| entry.is_kept(old, other, new))
}

/// The place of the first entry that none of the others keeps.
pub(crate) fn first_lost<E: Entry>(
    old: &Lists,
    new: &Lists,
    entries: &Items<E>,
    others: &Items<E>,
) -> Option<usize>
    ensures { result ≡ first_lost (E.keeps old.now new.now) entries.now others.now }
{
    for (place, entry) in entries.as_slice().iter().enumerate() {
        if !stands_in(old, new, place, entry, others) {
            return Some(place);
        }
    }
    None
}

/// Whether one of some entries of a new model keeps one of an old model. That at its place is looked at first: where models
/// differ little, it is the one.
fn stands_in<E: Entry>(old: &Lists, new: &Lists, place: usize, entry: &E, others: &Items<E>) -> bool
    ensures { result ≡ list_any (E.keeps old.now new.now entry.now) others.now }
{
    keeps_at(old, new, place, entry, others)
        || others.iter().any(|other| entry.is_kept(old, other, new))
}

/// Whether the entry at a place of a new model keeps one of an old model.
fn keeps_at<E: Entry>(old: &Lists, new: &Lists, place: usize, entry: &E, others: &Items<E>) -> bool
    ensures { result ≡ option_map_or (E.keeps old.now new.now entry.now) (slice_get others.now place) false }
{
    match others.get(place) {
        None => false,
        Some(other) => entry.is_kept(old, other, new),
    }
}

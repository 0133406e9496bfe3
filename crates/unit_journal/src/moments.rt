//! The moments of one log, among those of all, and the moment of what is written next.

ghost use Rattle.std.specs.Prelude.{◌≡◌, ◌<◌, ℕ, List, length, Option, OnOk, OnErr};
ghost use Rattle.unit_journal.specs.OnDisk.{last_moment, later};
ghost use Rattle.unit_journal.specs.steps.Moments.{with_one_more};

use ale_base::{Items, OutOfMemory};

/// The moments at a place have one more at their end. After an `Err` all is as before.
pub(crate) fn note(
    moments: &mut Items<Items<Option<u64>>>,
    place: usize,
    moment: Option<u64>,
) -> Result<(), OutOfMemory>
    requires { place < length moments.old }
    ensures ok { OnOk result (moments.new ≡ with_one_more moments.old place moment) }
    ensures err { OnErr result (moments.new ≡ moments.old) }
{
    moments.at_mut(place).push(moment)
}

/// The last moment at a place is taken back.
pub(crate) fn take_back(moments: &mut Items<Items<Option<u64>>>, place: usize)
    requires { place < length moments.old }
    ensures { (before : List (List (Option ℕ))) (moment : Option ℕ) → place < length before →
        moments.old ≡ with_one_more before place moment → moments.new ≡ before }
{
    let _moment = moments.at_mut(place).pop();
}

/// The last of moments, and none where there are none.
pub(crate) fn last(moments: &[Option<u64>]) -> Option<u64>
    ensures { result ≡ last_moment moments.now }
{
    match moments.last() {
        Some(moment) => *moment,
        None => None,
    }
}

/// Of two moments the larger; where only one is there, that one.
pub(crate) fn later(one: Option<u64>, other: Option<u64>) -> Option<u64>
    ensures { result ≡ later one other }
{
    match (one, other) {
        (None, other) => other,
        (Some(one), None) => Some(one),
        (Some(one), Some(other)) => Some(one.max(other)),
    }
}

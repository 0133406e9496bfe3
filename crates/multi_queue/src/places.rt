//! Units by their ids.

ghost use Rattle.std.specs.Prelude.{◌≡◌, MatchOption};
ghost use Rattle.std.specs.BTreeMap.{get};
ghost use Rattle.multi_queue.specs.Seen.{number_of, numbers_cmp, IsPlaced, IsAt, IsNowhere};

use crate::entry::Entry;
use ale_base::{Items, Tid};
use std::collections::BTreeMap;

/// How an id is looked up: its system and its number there.
pub(crate) type Number = (u8, u32);

/// The numbers of an id.
pub(crate) fn number_of(tid: Tid) -> Number
    ensures { result ≡ number_of tid }
{
    (tid.system().get(), tid.unit())
}

/// The place of the unit of this id that is not finished.
pub(crate) fn place_of(
    units: &Items<Entry>,
    places: &BTreeMap<Number, usize>,
    tid: Tid,
) -> Option<usize>
    requires placed { IsPlaced units.now (get numbers_cmp places.now) }
    ensures { MatchOption result (IsNowhere tid units.now (get numbers_cmp places.now)) (IsAt tid units.now (get numbers_cmp places.now)) }
{
    let number = number_of(tid);
    match places.get(&number) {
        Some(place) => {
            let unit = &units[*place];
            if unit.live { Some(*place) } else { None }
        }
        None => None,
    }
}

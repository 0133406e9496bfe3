//! Where a log has the units that it received.

ghost use Rattle.std.specs.Prelude.{◌≡◌, OnOk};
ghost use Rattle.std.specs.Option.{option_copied};
ghost use Rattle.unit_core.specs.Filters.{received, taken_by};
ghost use Rattle.unit_core.specs.Queues.{unit_named};
ghost use Rattle.log_tables.specs.Places.{ArePlaces, Placed, number_of, place_of};

use ale_base::{OutOfMemory, Tid};
use std::alloc::Global;
use std::collections::BTreeMap;
use std::marker::Model;
use unit_core::{AleUnit, Record, taken_by};

/// The places in a log, by the ids of the units that the records there took in. Contracts see the place of each id.
#[derive(Drop)]
pub(crate) struct Places {
    places: BTreeMap<(u8, u32), usize>,
}

impl Model for Places {
    ghost use Rattle.std.specs.Prelude.{ℕ, List};

    ghost Value = { List ((ℕ × ℕ) × ℕ) };

    ghost view = { λ places. places.places.entries };
}

impl Places {
    ghost use Rattle.std.specs.Prelude.{◌≡◌, [], OnOk};
    ghost use Rattle.log_tables.specs.Places.{Names, place_of};

    /// No places. It takes no memory.
    pub(crate) fn new(alloc: Global) -> Places
        ensures { result ≡ [] }
    {
        Places {
            places: BTreeMap::new(alloc),
        }
    }

    /// The place of an id.
    pub(crate) fn place(&self, tid: Tid) -> Option<usize>
        ensures { result ≡ place_of self.now tid }
    {
        match self.places.get(&number_of(tid)) {
            Some(place) => Some(*place),
            None => None,
        }
    }

    /// An id has this place from now on.
    pub(crate) fn enter(&mut self, tid: Tid, place: usize) -> Result<(), OutOfMemory>
        ensures { OnOk result (Names tid place (place_of self.old) (place_of self.new)) }
    {
        self.places.insert(number_of(tid), place)?;
        Ok(())
    }
}

/// The unit of an id that a log received.
pub(crate) fn unit_received<'a>(places: &Places, log: &'a [Record], tid: Tid) -> Option<&'a AleUnit>
    requires { ArePlaces log.now (place_of places.now) }
    ensures { option_copied result ≡ unit_named tid (received log.now) }
{
    match places.place(tid) {
        Some(place) => match log.get(place) {
            Some(record) => taken_by(record),
            None => None,
        },
        None => None,
    }
}

/// Notes the place of a record in those of units.
pub(crate) fn note_place(
    places: &mut Places,
    place: usize,
    next: &Record,
) -> Result<(), OutOfMemory>
    ensures { OnOk result (Placed (taken_by next.now) place (place_of places.old) (place_of places.new)) }
{
    match next {
        Record::Accept { unit } | Record::Direct { unit } => places.enter(unit.tid, place),
        _ => Ok(()),
    }
}

/// The numbers of an id.
fn number_of(tid: Tid) -> (u8, u32)
    ensures { result ≡ number_of tid }
{
    (tid.system().get(), tid.unit())
}

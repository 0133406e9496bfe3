//! The units that a case lists.

use crate::fault::Fault;
use crate::listed_rules::ListedRules;
use crate::words::Words;
use ale_base::{Fixed, Items, SystemNo, Tid};
use std::alloc::Global;
use unit_core::AleUnit;

/// The units of each system, from system 1 on.
pub(crate) type Lists = Items<Items<AleUnit>>;

/// The unit of this id, as it is listed.
pub(crate) fn unit_of(lists: &Lists, tid: Tid) -> Option<&AleUnit> {
    let list = lists.get(tid.system().get() as usize - 1)?;
    list.iter().find(|unit| unit.tid == tid)
}

/// The first units that the system at a place lists.
pub(crate) fn front_of(lists: &Lists, place: usize, count: usize) -> &[AleUnit] {
    match lists.get(place) {
        Some(units) => {
            let units = units.as_slice();
            &units[..count.min(units.len())]
        }
        None => &[],
    }
}

/// Adds so many systems, with no units.
pub(crate) fn add_systems(
    alloc: Global,
    lists: &mut Lists,
    words: &mut Words,
) -> Result<(), Fault> {
    for _ in 0..words.number()? {
        lists.push(Items::new(alloc))?;
    }
    Ok(())
}

/// Adds a unit to its sender's list, under the next number there.
pub(crate) fn add_unit(alloc: Global, lists: &mut Lists, words: &mut Words) -> Result<(), Fault> {
    let sender = words.system()?;
    let at = sender.get() as usize - 1;
    if at >= lists.len() {
        return Err(Fault::BadUnit);
    }
    let unit = read_unit(alloc, next_tid(sender, lists[at].len())?, words)?;
    lists.at_mut(at).push(unit)?;
    Ok(())
}

/// The id of the unit behind so many of its system.
fn next_tid(system: SystemNo, count: usize) -> Result<Tid, Fault> {
    if count >= Tid::MAX_UNIT as usize {
        return Err(Fault::BadUnit);
    }
    Ok(Tid::of(system, count as u32 + 1))
}

/// A unit with no documents: `to SYSTEM`, and then its queues and its function where they are given.
fn read_unit(alloc: Global, tid: Tid, words: &mut Words) -> Result<AleUnit, Fault> {
    let mut unit = AleUnit {
        tid,
        sender: tid.system(),
        receiver: read_receiver(words)?,
        function: function_of(ListedRules::FUNCTION)?,
        outq: Items::new(alloc),
        inq: Items::new(alloc),
        docs: Items::new(alloc),
    };
    read_parts(alloc, &mut unit, words)?;
    Ok(unit)
}

/// The receiver of a unit: `to SYSTEM`.
fn read_receiver(words: &mut Words) -> Result<SystemNo, Fault> {
    words.choice(&[(b"to", ())], Fault::BadUnit)?;
    words.system()
}

fn function_of(word: &[u8]) -> Result<Fixed<30>, Fault> {
    Fixed::of(word).ok_or(Fault::BadUnit)
}

/// A part of a unit.
#[derive(Clone, Copy)]
enum Part {
    Outbound,
    Inbound,
    Function,
}

const PARTS: [(&'static [u8], Part); 3] = [
    (b"outq", Part::Outbound),
    (b"inq", Part::Inbound),
    (b"function", Part::Function),
];

/// Reads the parts of a unit that are given.
fn read_parts(alloc: Global, unit: &mut AleUnit, words: &mut Words) -> Result<(), Fault> {
    for _ in 0..3 {
        if !words.is_at_end() {
            read_part(alloc, unit, words)?;
        }
    }
    Ok(())
}

fn read_part(alloc: Global, unit: &mut AleUnit, words: &mut Words) -> Result<(), Fault> {
    match words.choice(&PARTS, Fault::BadUnit)? {
        Part::Outbound => unit.outq = words.names(alloc)?,
        Part::Inbound => unit.inq = words.names(alloc)?,
        Part::Function => unit.function = function_of(words.word())?,
    }
    Ok(())
}

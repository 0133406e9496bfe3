//! Units by their ids, and a unit at the head of its queues.

ghost use Rattle.std.specs.Prelude.{◌≡◌, Bool};
ghost use Rattle.std.specs.Option.{option_copied};
ghost use Rattle.unit_core.specs.Queues.{is_listed, is_among, unit_named, has_name, are_different, stands_in, head_of, is_head, heads_outbound, heads_inbound};

use crate::AleUnit;
use ale_base::{QueueName, SystemNo, Tid};

/// A queue of units. An outbound one belongs to a sender and a destination, an inbound one to the system at which it is
/// looked at.
#[derive(Clone, Copy, PartialEq, Eq)]
pub enum Queue {
    Outbound {
        sender: SystemNo,
        destination: SystemNo,
        name: QueueName,
    },
    Inbound {
        name: QueueName,
    },
}

/// Whether an id is in a list.
pub fn is_listed(tid: Tid, tids: &[Tid]) -> bool
    ensures { result ≡ is_listed tid tids.now }
{
    tids.iter().any(|other| *other == tid)
}

/// Whether a unit of this id is among these.
pub fn is_among(tid: Tid, units: &[AleUnit]) -> bool
    ensures { result ≡ is_among tid units.now }
{
    units.iter().any(|unit| unit.tid == tid)
}

/// The unit of this id, the first where there are several.
pub fn unit_named(tid: Tid, units: &[AleUnit]) -> Option<&AleUnit>
    ensures { option_copied result ≡ unit_named tid units.now }
{
    units.iter().find(|unit| unit.tid == tid)
}

/// Whether the unit heads each of its outbound queues: in each it is the first whose id is not among those that are
/// through.
pub fn heads_outbound(through: &[Tid], units: &[AleUnit], unit: &AleUnit) -> bool
    ensures { result ≡ heads_outbound through.now units.now unit.now }
{
    unit.outq.iter().all(|name| {
        let queue = Queue::Outbound {
            sender: unit.sender,
            destination: unit.receiver,
            name: *name,
        };
        is_head(through, units, unit.tid, &queue)
    })
}

/// Whether the unit heads each of its inbound queues.
pub fn heads_inbound(through: &[Tid], units: &[AleUnit], unit: &AleUnit) -> bool
    ensures { result ≡ heads_inbound through.now units.now unit.now }
{
    unit.inq.iter().all(|name| is_head(through, units, unit.tid, &Queue::Inbound { name: *name }))
}

/// Whether the unit of this id heads a queue.
fn is_head(through: &[Tid], units: &[AleUnit], tid: Tid, queue: &Queue) -> bool
    ensures { result ≡ is_head through.now units.now tid queue.now }
{
    match head_of(through, units, queue) {
        Some(unit) => unit.tid == tid,
        None => false,
    }
}

/// The first unit of a queue that is outstanding.
fn head_of<'a>(through: &[Tid], units: &'a [AleUnit], queue: &Queue) -> Option<&'a AleUnit>
    ensures { option_copied result ≡ head_of through.now units.now queue.now }
{
    units.iter().find(|unit| stands_in(queue, unit) && !is_listed(unit.tid, through))
}

/// Whether the unit is in a queue.
fn stands_in(queue: &Queue, unit: &AleUnit) -> bool
    ensures { result ≡ stands_in queue.now unit.now }
{
    match queue {
        Queue::Outbound {
            sender,
            destination,
            name,
        } => unit.sender == *sender
            && unit.receiver == *destination
            && has_name(name, unit.outq.as_slice()),
        Queue::Inbound { name } => has_name(name, unit.inq.as_slice()),
    }
}

/// Whether no name is in a list twice.
pub fn are_different(names: &[QueueName]) -> bool
    ensures { result ≡ are_different names.now }
{
    for (place, name) in names.iter().enumerate() {
        if has_name(name, &names[place + 1..]) {
            return false;
        }
    }
    true
}

fn has_name(name: &QueueName, names: &[QueueName]) -> bool
    ensures { result ≡ has_name name.now names.now }
{
    names.iter().any(|other| *other == *name)
}

//! Units that join the queues of a direction.

ghost use Rattle.std.specs.Prelude.{◌≡◌, map, IfOk, OnOk};
ghost use Rattle.plain_queues.specs.Changes.{added};
ghost use Rattle.plain_queues.specs.LogQueues.{keys_of, added_all};
ghost use Rattle.system_tables.specs.CanNote.{CanAdd, CanAddAll};

use ale_base::{OutOfMemory, QueueName, Way};
use multi_queue::{QueueKey, Queues};
use std::alloc::Global;
use unit_core::AleUnit;

/// Adds units behind all others, in their order. After an `Err` some may have been added.
pub(crate) fn add_all(
    alloc: Global,
    way: Way,
    queues: &mut Queues,
    more: &[AleUnit],
) -> Result<(), OutOfMemory>
    requires { CanAddAll way more.now queues.old }
    ensures { OnOk result (queues.new ≡ added_all way more.now queues.old) }
{
    for unit in more {
        add(alloc, way, queues, unit)?;
    }
    Ok(())
}

/// Adds a unit behind all others. After an `Err` all is as before.
pub(crate) fn add(
    alloc: Global,
    way: Way,
    queues: &mut Queues,
    unit: &AleUnit,
) -> Result<(), OutOfMemory>
    requires { CanAdd way unit.now queues.old }
    ensures { OnOk result (queues.new ≡ added unit.now.tid (keys_of way unit.now) queues.old) }
{
    let keys = keys_of(alloc, way, unit)?;
    queues.add(unit.tid, keys.as_slice())
}

/// The keys of a unit's queues: those of its receiver, or those of the system that received it.
fn keys_of(alloc: Global, way: Way, unit: &AleUnit) -> Result<Vec<QueueKey>, OutOfMemory>
    ensures { IfOk result (λ keys. keys.items ≡ keys_of way unit.now) }
{
    match way {
        Way::Outgoing => keys_with(alloc, unit.receiver.get(), unit.outq.as_slice()),
        Way::Incoming => keys_with(alloc, 0, unit.inq.as_slice()),
    }
}

/// The keys of the queues with these names.
fn keys_with(alloc: Global, partner: u8, names: &[QueueName]) -> Result<Vec<QueueKey>, OutOfMemory>
    ensures { IfOk result (λ keys. keys.items ≡ map (λ name. record { partner = partner; name = name }) names.now) }
{
    let mut keys = Vec::new(alloc);
    for name in names {
        keys.push(QueueKey {
            partner,
            name: *name,
        })?;
    }
    Ok(keys)
}

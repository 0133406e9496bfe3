//! Numbers of queues, in the order of first use.

ghost use Rattle.std.specs.Prelude.{◌≡◌, false, [], None, Some, IfOk};
ghost use Rattle.std.specs.BTreeMap.{get};
ghost use Rattle.multi_queue.specs.Counted.{Grows};
ghost use Rattle.multi_queue.specs.Seen.{key_at, name_of, names_cmp, IsNamed, AreNumbersOf};

use crate::entry::Lane;
use crate::line::Line;
use crate::names::{Name, name_of, queue_of};
use ale_base::{Items, OutOfMemory};
use plain_queues::QueueKey;
use std::alloc::Global;
use std::collections::BTreeMap;

/// The number of the queue of a key, which it gets where it is used for the first time.
pub(crate) fn number_in(
    alloc: Global,
    lanes: &mut Items<Lane>,
    names: &mut BTreeMap<Name, usize>,
    key: &QueueKey,
) -> Result<usize, OutOfMemory>
    requires named { IsNamed lanes.old (get names_cmp names.old) }
    ensures named { IsNamed lanes.new (get names_cmp names.new) }
    ensures grows { Grows lanes.old lanes.new }
    ensures number { IfOk result (λ q. key_at lanes.new q ≡ Some key.now) }
{
    match queue_of(names, key) {
        Some(queue) => Ok(queue),
        None => new_number(alloc, lanes, names, key),
    }
}

/// The numbers of the queues of these keys.
pub(crate) fn numbers_in(
    alloc: Global,
    lanes: &mut Items<Lane>,
    names: &mut BTreeMap<Name, usize>,
    keys: &[QueueKey],
) -> Result<Vec<usize>, OutOfMemory>
    requires named { IsNamed lanes.old (get names_cmp names.old) }
    ensures named { IsNamed lanes.new (get names_cmp names.new) }
    ensures grows { Grows lanes.old lanes.new }
    ensures numbers { IfOk result (λ qs. AreNumbersOf keys.now lanes.new qs.items) }
{
    let mut numbers = Vec::new(alloc);
    for key in keys {
        match number_in(alloc, lanes, names, key) {
            Ok(number) => numbers.push(number)?,
            Err(short) => return Err(short),
        }
    }
    Ok(numbers)
}

/// The number of a queue that is used for the first time.
fn new_number(
    alloc: Global,
    lanes: &mut Items<Lane>,
    names: &mut BTreeMap<Name, usize>,
    key: &QueueKey,
) -> Result<usize, OutOfMemory>
    requires named { IsNamed lanes.old (get names_cmp names.old) }
    requires new { get names_cmp names.old (name_of key.now) ≡ None }
    ensures named { IsNamed lanes.new (get names_cmp names.new) }
    ensures grows { Grows lanes.old lanes.new }
    ensures number { IfOk result (λ q. key_at lanes.new q ≡ Some key.now) }
{
    let number = lanes.len();
    if let Err(short) = lanes.push(new_lane(alloc, key)) {
        return Err(short);
    }
    match names.insert(name_of(key), number) {
        Ok(_) => Ok(number),
        Err(_) => {
            lanes.truncate(number);
            Err(OutOfMemory)
        }
    }
}

/// A queue in which no unit is and which is not stopped.
fn new_lane(alloc: Global, key: &QueueKey) -> Lane
    ensures { result ≡ record { key = key.now; stopped = false; line = [] } }
{
    Lane {
        key: *key,
        stopped: false,
        line: Line::new(alloc),
    }
}

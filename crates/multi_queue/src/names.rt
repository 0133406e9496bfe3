//! Queues by their keys.

ghost use Rattle.std.specs.Prelude.{◌≡◌};
ghost use Rattle.std.specs.BTreeMap.{get};
ghost use Rattle.ale_base.specs.QueueName.{IsQueueName};
ghost use Rattle.multi_queue.specs.Seen.{name_of, names_cmp};

use plain_queues::QueueKey;
use std::collections::BTreeMap;

/// How a key is looked up: its partner, and its name with blanks behind it.
pub(crate) type Name = (u8, [u8; 24]);

/// What a key is looked up by.
pub(crate) fn name_of(key: &QueueKey) -> Name
    ensures name { result ≡ name_of key.now }
    ensures proper { IsQueueName key.now.name }
{
    (key.partner, key.name.field())
}

/// The number of the queue of a key.
pub(crate) fn queue_of(names: &BTreeMap<Name, usize>, key: &QueueKey) -> Option<usize>
    ensures number { result ≡ get names_cmp names.now (name_of key.now) }
    ensures proper { IsQueueName key.now.name }
{
    let name = name_of(key);
    match names.get(&name) {
        Some(queue) => Some(*queue),
        None => None,
    }
}

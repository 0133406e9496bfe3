//! Keys of queues.

ghost use Rattle.std.specs.Prelude.{◌≡◌};
ghost use Rattle.plain_queues.specs.Keys.{has_key, keys_differ};

use ale_base::QueueName;

/// The most queues of a unit in one direction.
pub const MOST_QUEUES: usize = 8;

/// Which queue of a system it is, among its outbound ones or among its inbound ones.
#[derive(Clone, Copy, Debug, PartialEq, Eq)]
pub struct QueueKey {
    /// The number of the system to which an outbound queue leads, and 0 for an inbound queue.
    pub partner: u8,
    /// The name of the queue.
    pub name: QueueName,
}

/// Whether a key is among these.
pub(crate) fn has_key(key: &QueueKey, keys: &[QueueKey]) -> bool
    ensures { result ≡ has_key key.now keys.now }
{
    keys.iter().any(|other| *other == *key)
}

/// Whether no key is in a list twice.
pub fn keys_differ(keys: &[QueueKey]) -> bool
    ensures { result ≡ keys_differ keys.now }
{
    for (place, key) in keys.iter().enumerate() {
        if has_key(key, &keys[place + 1..]) {
            return false;
        }
    }
    true
}

//! Queues, and whether units went through one in order.

use ale_base::{QueueName, SystemNo};
use unit_core::AleUnit;

/// A queue of units.
#[derive(Clone, Copy)]
pub(crate) enum Queue {
    /// From a sender to a receiver.
    Outbound(SystemNo, SystemNo, QueueName),
    /// At a receiver, whoever sent the unit.
    Inbound(QueueName),
}

impl Queue {
    fn has(self, unit: &AleUnit) -> bool {
        match self {
            Queue::Outbound(sender, receiver, name) => {
                unit.sender == sender
                    && unit.receiver == receiver
                    && unit.outq.as_slice().contains(&name)
            }
            Queue::Inbound(name) => unit.inq.as_slice().contains(&name),
        }
    }

    /// Whether those of some units that are in the queue are, one by one, the first of those of others.
    pub(crate) fn is_kept(self, some: &[&AleUnit], others: &[&AleUnit]) -> bool {
        let mut left = others.iter();
        for unit in some {
            if self.has(unit) {
                match left.find(|other| self.has(other)) {
                    Some(other) if other.tid == unit.tid => {}
                    _ => return false,
                }
            }
        }
        true
    }
}

//! Which outbound unit goes next: the unit that is to be sent to its receiver.
//!
//! Contract: `next` claims the offered unit that was added first. The definitions are those of `plain_queues`.
#![tactic(auto)]

mod scheduling;

pub use scheduling::next;

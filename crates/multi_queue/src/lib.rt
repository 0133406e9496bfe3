//! Units in queues, and which of them may go next, as a running system decides it: by counted heads.
//!
//! Contract: that of `plain_queues`, whose definitions it cites and whose public types it passes on; and it lists its queues, each with
//! the number of its units and its status.
#![tactic(auto)]

mod bits;
mod board;
mod counting;
mod entry;
mod growing;
mod line;
mod listing;
mod names;
mod numbering;
mod places;
mod queues;
mod reasons;
mod row;
mod status;

pub use plain_queues::{
    Claim, MOST_QUEUES, NotOffered, QueueCount, QueueKey, QueueStatus, Steps, keys_differ,
};
pub use queues::Queues;

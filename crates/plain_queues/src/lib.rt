//! Units in queues, and which of them may go next, without a log to be walked: the plain form, a list that is scanned.
//!
//! Contract: the queues are seen as the units that were added and are not finished, in the order in which they were added, each with
//! its claim and its mark, and the stopped queues. Which unit is offered, why another one is not, the status of a queue and
//! what each call changes are exactly those of this list. `multi_queue`, by which a system is to work, has the same contract
//! and scans no list. The definitions are in `specs/`: `Keys`, `Queues` (the units and the stops), `Offered` (who is offered, and why
//! not), `Changes` (what calls change, and what a finish may look at), `Status`.
#![tactic(auto)]

mod claim;
mod not_offered;
mod queue_count;
mod queue_key;
mod queue_status;
mod queued_unit;
mod queues;
mod steps;

pub use claim::Claim;
pub use not_offered::NotOffered;
pub use queue_count::QueueCount;
pub use queue_key::{MOST_QUEUES, QueueKey, keys_differ};
pub use queue_status::QueueStatus;
pub use queues::Queues;
pub use steps::Steps;

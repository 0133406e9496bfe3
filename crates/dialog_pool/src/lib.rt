//! Dialog workers over a desk: they take works from it, prepare them each for itself, and do them one at a time. A worker does
//! up to 16 works each time that it has the desk.
//!
//! Contract: whichever way a pool ends, the desk that it gives back has the origin of the one that was handed in; where no
//! memory was wanting, the number that it answers is what the desk's count rose by (`run_pool`). In the body works go to the
//! workers on a ring of numbered tickets, all of whose calls keep one law: a ticket that was pushed is on the ring or was
//! popped, and that once. The definitions are in `specs/`: `Tickets` (the law of the ring).
#![tactic(auto)]

mod batch;
mod desk;
mod locked;
mod opened;
mod opening;
mod pool;
mod pool_end;
mod ring;
mod ticket;
mod worker;

pub use desk::Desk;
pub use pool::run_pool;
pub use pool_end::{PoolEnd, PoolShort};
pub use ring::Hand;

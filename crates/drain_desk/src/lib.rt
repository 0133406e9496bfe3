//! The desk of a drain: dialog workers claim the units that are offered, prepare each for itself, and ship, execute and confirm them one at
//! a time under the one lock.
//!
//! Contract: a drain by workers does what one on the caller's thread does: acts one after the other, each with the records that it appends,
//! until no unit is offered and no confirmation is due but those that were lost (`drain`). The definitions are in `specs/`: `Desk` (what a
//! desk keeps true between two calls) and `Work` (what is known of a work wherever it is).
#![tactic(auto)]

mod acting;
mod began;
mod claiming;
mod desk;
mod draining;
mod preparing;
mod work;

pub use began::Began;
pub use desk::DrainDesk;
pub use draining::{Drained, drain};
pub use work::{Ready, Work};

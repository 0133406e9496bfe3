//! Which Commits and Puts may follow a log, and what a gathering makes.
//!
//! Contract: `check_master` says exactly whether a document may be a master, and names its fault; `gathered` are exactly the
//! masters of a gathering, as documents; `may_commit` and `may_put` say whether a Commit and a Put may follow a log by its model,
//! objects and change pointers, and not by how many units there would be. The definitions are in `specs/`: `Masters`, `Gathered`,
//! `Commits`, `Puts`, and `Last` (the last status of a document).
#![tactic(auto)]

mod commits;
mod fault;
mod gathering;
mod last;
mod masters;
mod puts;

pub use commits::{MOST_SEGMENTS, may_commit};
pub use fault::MasterFault;
pub use gathering::gathered;
pub use last::last_is;
pub use masters::check_master;
pub use puts::may_put;

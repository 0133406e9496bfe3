//! The exactly-once law over the logs of all systems: whether they keep it, and else the first record that breaks it.
//!
//! Contract: none exactly where each record keeps each clause of the law, else the first that does not, by systems, records and clauses;
//! and none exactly where the law `Once` holds, of logs that are each legal by themselves. The definition is in
//! `specs/`: `Breaches` (when a record keeps a clause, and what is looked at before).
//!
//! Not by contract, but by its form: it reads each log twice and each list of units once, with a look-up in a tree for each id and
//! each queue that they name.
#![tactic(auto)]

mod breach;
mod counting;
mod first;
mod lists;
mod placing;
mod taking;
mod telling;
mod told;

pub use breach::{Breach, Clause};
pub use first::first_breach;

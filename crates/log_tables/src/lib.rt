//! The tables of a log that is there: each record is decided by the tables of those before it, and noted in them.
//!
//! Contract: `take` answers exactly whether a record may follow the log, by the law of the protocol and the rules of the application, and
//! where it may, the tables are those of the log with it. It reads no record but the next one, and the one that took a unit in. The
//! definitions are in `specs/`: `OfLog` (the tables of a log that is read), `Places` (where a log has the units that it received), `Read`
//! (what is asked of the rules and of a record), `Held` (the claim that a record ends).
#![tactic(auto)]

mod deciding;
mod ids;
mod noting;
mod places;
mod rules;
mod tables;

pub use rules::{Brought, LogRules};
pub use tables::{LogTables, read, take};

//! A log that is there, read record by record: its tables, or the first record that is bad and why.
//!
//! Contract: `read_log` gives the tables of the log exactly where no record is bad, and else the number and the cause of the
//! first that is: it is the Genesis of another system or of another model, or it may not follow those before it, by the law or
//! by its moment. The definitions are in `specs/`: `Bad` (what is wrong with a record), `Reading` (what a log is read as).
#![tactic(auto)]

mod bad;
mod moments;
mod reading;

pub use bad::{BadRecord, Cause};
pub use reading::read_log;

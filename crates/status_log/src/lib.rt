//! What commands answer and list: statuses of documents, refusals, causes, and the lines of listings.
//!
//! Contract: each refusal has the number by which an operator knows it (`Refusal::number`), exactly where it is one of the
//! numbered ones; and a table of statuses has for each document exactly those that it got, each with the number of its record
//! (`StatusLog`). The definitions are in `specs/`: `Refusal`, `Statuses`, and `Given`, a law on the numbers of a whole log.
#![tactic(auto)]

mod cause;
mod line;
mod listing;
mod refusal;
mod show;
mod status;
mod status_at;
mod status_table;

pub use cause::Cause;
pub use line::{DocLine, HistoryLine, ObjectLine, QueueLine, SegmentLine, UnitLine, UnitState};
pub use listing::Listing;
pub use refusal::Refusal;
pub use show::Show;
pub use status::Status;
pub use status_at::{StatusAt, number_after};
pub use status_table::StatusLog;

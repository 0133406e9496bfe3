//! The text of a report: the lines of commands, of listings, and the last line of a run.
//!
//! Contract: `reply_line`, `listing_lines` and `fault_line` append exactly the text of what they are given, and after an
//! `Err` nothing. The definitions are in `specs/`: `Reply`, `Listing`, `FaultLine`, a row each reply, line and cause.
#![tactic(auto)]

mod docs;
mod faults;
mod history;
mod joining;
mod listing;
mod objects;
mod put;
mod queues;
mod refusal;
mod replies;
mod reply;
mod units;

pub use faults::{FaultLine, fault_line};
pub use listing::listing_lines;
pub use replies::reply_line;
pub use reply::Reply;

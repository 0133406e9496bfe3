//! The transaction ids that a receiver knows: those of the units that it received and that it has not forgotten.
//!
//! Contract: an id is seen exactly where it was entered and not forgotten since. The definition that ties a table to a log is in
//! `specs/LogTids`, and what each record of a log does to it in `proofs/LogTidsLemmas`.
#![tactic(auto)]

mod numbering;
mod tids;

pub use numbering::next_tid;
pub use tids::Tids;

//! Filters: what a receiver may see of a document.
//!
//! Contract: `keep` gives, for each group of a row, the largest part of a forest in which each segment passes the group
//! and nothing mandatory is missing, and for several groups their union; a valid forest stays valid. The definitions are
//! in `specs/`: `Passing`, `Kept`, and `FromLeaves` (the same as a function, for callers that compute with it); those in
//! `specs/steps/` serve private functions alone.
#![tactic(auto)]

mod best;
mod condition;
mod copied;
mod keeping;
mod member;
mod needs;
mod union;

pub use keeping::{keep, keep_groups};

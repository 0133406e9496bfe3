//! The business objects of a system, and what postings and puts make of them.
//!
//! Contract: objects are seen as a map from kind and key to the fields that are not blank; a posting does exactly what its
//! definition says, or is refused by the first reason that applies and changes nothing (`apply`). The definitions are in
//! `specs/`: `Objects` (the map, what is asked of it, and the listing), `Listing` (the order of the listing), `Posting`
//! (postings, their reasons, and puts).
#![tactic(auto)]

mod object;
mod objects;
mod posting;
mod putting;
mod text_map;

pub use object::Object;
pub use objects::Objects;
pub use posting::{Outcome, Posting};
pub use putting::{apply, put};

//! The models that the texts of logs say, and which of them is in force.
//!
//! Contract: a model is given exactly for a text that says one, and it is that (`Readings::model`);
//! the text in force behind a log is that of its last record with one (`text_in_force`). The definitions are in `specs/`:
//! `Said` (the model that a text says), `OfLog` (the models of a log, and the one in force behind it).
#![tactic(auto)]

mod in_force;
mod readings;

pub use in_force::{differs, text_in_force};
pub use readings::Readings;

//! A model, read from a file.
//!
//! Contract: `read` gives the text of a file and the model that it says, or why there is none: what is told of the file, a fault
//! of the files that came in this call, or the text's own first fault; `ModelFileEnd::words` tells it. The definitions are in
//! `specs/`: `ModelFile` (what a file says, and why it says none), `Words`.
#![tactic(auto)]

mod end;
mod reading;

pub use end::ModelFileEnd;
pub use reading::{ModelFile, read};

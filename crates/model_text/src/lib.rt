//! Reading a distribution model from its text, which is TOML.
//!
//! Contract: `read` gives exactly the model that a text says, which keeps the rules of models, or its first fault with
//! the path to it, which `ModelFault::words` tells. That each row has a profile of what is sent, and each profile leaves what is mandatory, is checked last, over
//! the parts of a model that was read. The definitions are in `specs/`, a module a section of the text; `Profiled` and `Whole`
//! have those two checks.
#![tactic(auto)]

mod basics;
mod entries;
mod fault;
mod fields;
mod idoc_types;
mod keys;
mod leaving;
mod listed;
mod model;
mod profiled;
mod reading;
mod releases;
mod segments;
mod subjects;
mod systems;
mod traffic;
mod whole;

pub use fault::ModelFault;
pub use reading::{MAX_BYTES, read};

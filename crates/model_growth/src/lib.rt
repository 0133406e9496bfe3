//! Whether a model may replace another one of the same landscape.
//!
//! Contract: `first_unkept` gives the first part of the old model that the new one does not keep, and none exactly where it
//! keeps all that a replacement has to keep; `Unkept::path` is the path to it. The definitions are in `specs/`: `Growth` over
//! those of `Named`, `Tests`, `Kept`, and `Paths`.
#![tactic(auto)]

mod entries;
mod entry;
mod growth;

pub use growth::{Unkept, first_unkept};

//! The sections of a model's text on message types: kinds of business objects, message types, reduced ones, and filters.
//!
//! Contract: each section gives exactly the list that the text says or its first finding, by its definition in `specs/`:
//! `Kinds`, `Messages`, `Reduced`, `Filters`. A list that was read keeps its rules of a model, and has the entries of the
//! text one for one (`Says`).
#![tactic(auto)]

mod fields;
mod filters;
mod keep;
mod keys;
mod kinds;
mod messages;
mod own_fields;
mod reduced;
mod roots;
mod things;

pub use filters::filters_at;
pub use kinds::kinds_at;
pub use messages::messages_at;
pub use reduced::reduced_at;
pub use things::Named;

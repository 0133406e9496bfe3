//! What is sent of a document to one receiver: segments are removed, fields are reduced and converted, and definitions
//! of a release are given.
//!
//! Contract: each call is exactly one plain map over the forest, and a valid forest stays valid. What that map makes of each
//! tree is said a second time, as a relation in other words. The definitions are in `specs/`: `Removed`, `Reduced`,
//! `Converted`, `Released`, with `Left` (the relation) and `Texts`; those in `specs/steps/` serve private functions alone.
#![tactic(auto)]

mod conversion;
mod head;
mod reduction;
mod release;
mod removal;
mod texts;
mod walk;

pub use conversion::convert_fields;
pub use reduction::reduce_message;
pub use release::to_release;
pub use removal::remove_segments;

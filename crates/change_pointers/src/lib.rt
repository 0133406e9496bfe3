//! Change pointers: which objects changed, for which message types, and the master documents that are made of them.
//!
//! Contract: pointers are seen as a list in the order in which they were noted. The objects that wait for a message type are
//! told in byte order, each once (`Pointers::pending`), a put notes exactly the pointers of the fields that it changes
//! (`noted`), and the master of an object has the object as it is and is a document of its message type (`master_of`). Under
//! another model pointers go by the names of their message types (`Pointers::renumber`). The definitions are in `specs/`:
//! `Pointers`, `Noted`, `Master` and `Renumbered`; what clearing, waiting and renumbering are is said there once more in other
//! words, in `Laws`.
#![tactic(auto)]

mod master;
mod noting;
mod object_set;
mod pointer;
mod pointers;
mod renumbering;

pub use master::master_of;
pub use noting::{name_at, noted};
pub use pointer::{ObjectKey, Pointer};
pub use pointers::Pointers;

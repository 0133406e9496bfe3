//! A document that is read by its message type.
//!
//! Contract: `read_by_type` gives exactly what the data records make by the entries for the message type that MESTYP stands for, and
//! what is read so is a document by these entries. The definitions are in `specs/`: `Document` (a forest by entries) and `Reading`.
#![tactic(auto)]

mod reading;

pub use reading::{Reading, read_by_type, type_for};

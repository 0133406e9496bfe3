//! Units of work, the records of a system's log, and what a log says of its units.
//!
//! Contract: the lists of the units received and of the transaction ids executed, done, ended and forgotten are exactly
//! those of the log. The definitions are in `specs/`: `Filters` (these lists, the marks, and stopped queues), `Queues` (a unit in a
//! queue, and at its head), `Once` (each unit once, and in the order of its queues), `Inside` (what a legal log keeps by
//! itself), `SameUnit` (units byte for byte the same), `Systems` (the list of each system, and numbered units).
#![tactic(auto)]

mod ale_unit;
mod filters;
mod marks;
mod queue;
mod raw_unit_doc;
mod records;
mod same_unit;
mod shared;

pub use ale_unit::AleUnit;
pub use filters::{done_in, ended_in, executed, forgotten_in, received, taken_by};
pub use marks::{is_marked, is_stopped};
pub use queue::{
    Queue, are_different, heads_inbound, heads_outbound, is_among, is_listed, unit_named,
};
pub use raw_unit_doc::RawUnitDoc;
pub use records::Record;
pub use same_unit::is_same_unit;
pub use shared::Shared;

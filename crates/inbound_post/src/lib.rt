//! What a system makes of the documents that it receives.
//!
//! Contract: `posting` is what a document is to make of an object, and `prepare` what becomes of each document of a unit, exactly,
//! by the unit and the model alone. `ApplicationTables` keeps what a log made of its system's documents, objects and change
//! pointers, exactly, record by record. The definitions are in `specs/`: `Reading` (the posting of a document), `Prepared` (by the
//! profiles), `Application` (what a log made of its application), and `Tables` (that tables are those of an application). `Laws`
//! says in other words what a posting has, and which pointers a Commit clears.
#![tactic(auto)]

mod application_tables;
mod inbound_document;
mod prepared;
mod preparing;
mod reading;
mod receiving;

pub use application_tables::ApplicationTables;
pub use inbound_document::InboundDocument;
pub use prepared::{DocPosting, Prepared};
pub use preparing::prepare;
pub use reading::posting;

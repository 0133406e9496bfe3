//! What an operator is shown of a system that works by models: its documents, one document, what became of one, its units, its queues, its
//! objects.
//!
//! Contract: each function gives, by the tables of a log, exactly the lines that its definition reads off the log, and `listing` those
//! that are asked for. No call walks the log, and nothing changes. The definitions are in `specs/`: `DocumentLines`, `OneDocument` with
//! `Places` (where segments stand), `History` (what became of a document), `UnitLines` and `QueueLines` with `SystemNames`,
//! `ObjectLines`, `Listings` (the listing that is asked for), and `OfSystem` (the tables of a system that works by models).
#![tactic(auto)]

mod document_history;
mod document_lines;
mod object_lines;
mod one_document;
mod one_listing;
mod places;
mod queue_lines;
mod shown_document;
mod system_names;
mod unit_lines;

pub use document_history::history;
pub use document_lines::documents;
pub use object_lines::objects;
pub use one_document::document;
pub use one_listing::{listing, system_of};
pub use queue_lines::queues;
pub use shown_document::ShownDocument;
pub use unit_lines::units;

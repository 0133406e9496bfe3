//! What is sent of a master document to each receiver, the documents and units that a log stands for, and the statuses of these
//! documents.
//!
//! Contract: `sent` is exactly what the filters and the profile of a row leave of a master, with its control record, and
//! none exactly where the largest kept part is nothing; `queues` are exactly the names by the profile's rules, or the first
//! fault; `Outbox::added` is exactly what one more record of a log adds, and `committed` are the units of a whole log, to
//! which each record adds and in which it changes nothing; `OutboundTables` keeps, exactly, the documents and the statuses of a
//! log, record by record. The definitions are in `specs/`: `ControlRecord` and `Sent` (one document), `QueueNames`, `Queued` (the
//! queues of a unit by its documents, in other words), `Added` (one record), `Addressed` (whom documents and units are for, by their
//! control records), `Carried` (which documents units carry, in other words), `Committed` (whole logs), `Once` (that each document is
//! in one place, by the lemmas of `proofs/PlaceLemmas`), `Statuses` (when a document gets which status), `Tables` (that tables are
//! those of a log), and `Units`, which holds of every unit of a log by the lemmas of `proofs/UnitLemmas`.
#![tactic(auto)]

mod added;
mod adding;
mod batch;
mod committing;
mod control_record;
mod fault;
mod masters;
mod naming;
mod numbering;
mod outbound_tables;
mod outbox;
mod packets;
mod parcel;
mod queue_lists;
mod sending;

pub use added::{Added, Fate, OutDocument, OutUnit, Waiting};
pub use committing::committed;
pub use fault::{AddFault, BuildFault};
pub use masters::may_be_of;
pub use outbound_tables::OutboundTables;
pub use outbox::Outbox;
pub use queue_lists::{QueueLists, queues};
pub use sending::sent;

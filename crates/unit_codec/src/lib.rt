//! The spelling of a log's records and entries: bytes, exact in both directions.
//!
//! Contract: what is read is spelled so, what is spelled so is read, and of other bytes the first field that does not
//! follow its rule is named. The definitions are in `specs/`: `Kind` (a kind of field: its spelling, which values have one,
//! and how it is read; and kinds made of others), `Fields` (the kinds that records have), `Records` (each record's byte
//! and fields), `Entries`, `Condition` (which records have a spelling), `Reading`. Lemmas for who builds on the codec are
//! in `proofs/`: `EntryLemmas`.
#![tactic(auto)]

mod codec;
mod documents;
mod entry;
mod fault;
mod fields;
mod limits;
mod lists;
mod put;
mod reading;
mod rules;
mod units;
mod unread;
mod writing;

pub use codec::{read_entry, read_record, write_entry, write_record};
pub use entry::Entry;
pub use fault::CodecFault;

//! A journal over one volume: bodies of bytes, each of which is on the disk for good once it is acknowledged.
//!
//! Contract: `open` gives the log that the volume's bytes stand for, or the place of the damage, and `append` adds one
//! body and nothing else. A crash at any moment of an append leaves the log before it or after it; a crash of an opening
//! leaves what was handed in, or from some moment on, and after its end, that log. The definitions are in `specs/`:
//! `Log` (which log bytes stand for, and where they are damaged), `Settled` (a journal that is ready for appends), `Bytes`
//! (what both leave of the volume's bytes). Lemmas for who builds on journals are in `proofs/`: `SettledLemmas` (a journal
//! through calls on other volumes), beside those of `ale_volumes`.
#![tactic(auto)]

mod close_gate;
mod fault;
mod journal;
mod opening;
mod read_durable;
mod read_log;
mod write_synced;

pub use fault::{AppendFault, OpenFault};
pub use journal::Journal;
pub use opening::open;

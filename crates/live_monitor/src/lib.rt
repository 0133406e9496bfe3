//! Three totals that threads read while one writes, without any lock of the writer's.
//!
//! Contract: what a reader reads is in order, executed at most accepted and accepted at most committed, and each total is at least what
//! this reader had seen (`Reader::read`); what a writer tells a reader is exactly what was stored last, and the reader has seen it
//! (`Writer::tell`). A call that takes the runtime may try again while another one is under way: its promise holds if it returns. The
//! totals are kept in one cell, whose law all its steps keep (`cell`). The definitions are in `specs/`: `Totals` (when totals are in
//! order, and when they are at least others), `Monitor` (what contracts see of a writer and of a reader) and `Law` (the law of the cell).
#![tactic(auto)]

mod cell;
mod monitor;
mod opening;
mod reader;
mod starting;
mod totals;
mod writer;

pub use reader::Reader;
pub use starting::start;
pub use totals::Totals;
pub use writer::Writer;

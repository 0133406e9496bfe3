//! The exactly-once law over the logs of all systems, computed by plain scans, for programs of cases.
//!
//! It shares nothing with the definition (`Once` of `unit_core`) but the records and the units that both read. It has no
//! contract: it is a second way to the same answer, and `protocol_scenes` shows logs that break each clause alone.
#![tactic(auto)]

mod clause;
mod logs;
mod queue;
mod system_log;

pub use logs::Logs;

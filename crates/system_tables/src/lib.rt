//! The tables of one system: what a running system keeps of its log, so that it decides without reading it.
//!
//! Contract: each record that joins the log is noted by one call, which does to each table exactly what the record says of it. So
//! tables that were those of a log are those of the longer one. The definitions are in `specs/`: `Tables` (what is seen of the tables),
//! `Noted` (what a record does to them), `CanNote` (what noting it asks), `OfLog` (the tables of a log), `Joins` (what is known of a
//! record that joins a log).
#![tactic(auto)]

mod adding;
mod application;
mod ending;
mod noting;
mod tables;

pub use application::Application;
pub use tables::SystemTables;

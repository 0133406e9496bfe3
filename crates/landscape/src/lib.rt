//! Systems that work by a distribution model: commands, units and their application, over volumes.
//!
//! Contract: a command appends exactly the record that it asks for by the log of its system, and nothing where it asks for none, or is
//! refused exactly for the first reason that applies; each call that moves a unit is its event of the protocol, under the models that the
//! logs name. The definitions are in `specs/`: `Begun` (what is kept), `Standing` (the tables of a system), `Carried` (what commands ask
//! for, and how they are carried out), `Asked` (which record a command asks for by a log, or its first refusal),
//! `Operator` (what an operator asks for), `Shown` (what an operator is shown), `Counted` (how much the logs hold), `Working` (what is
//! prepared for the work of a claim), `Opened` (a landscape that is opened) and `Reopened` (a system of it that is opened again).
#![tactic(auto)]

mod bar;
mod bringing;
mod commands;
mod counts;
mod ids;
mod landscape;
mod open_end;
mod passing;
mod putting;
mod reopen_end;
mod sending;
mod wanted;

pub use counts::{Counts, Gathered, Sent};
pub use landscape::Landscape;
pub use open_end::{OpenEnd, OpenWhy, Refused};
pub use reopen_end::ReopenEnd;

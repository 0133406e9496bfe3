//! The sections of a model's text that say what is sent where, and how: rows, and profiles of what is sent and received.
//!
//! Contract: each section is read exactly as its definition says, or its first finding with the path to it. The
//! definitions are in `specs/`: `Rows`, `Outbound` with `Changes` and `QueueRules`, and `Inbound`; `Ways` and `Values`,
//! what they share; `Basis`, what profiles of what is sent refer to; `Referred`, what rows and the rules of a profile refer to;
//! `Says`, what a text says, and no order of checks. That what was read keeps the rules of a model is proved in `proofs/`,
//! section by section.
#![tactic(auto)]

mod basis;
mod changes;
mod inbound;
mod keys;
mod outbound;
mod queue_rules;
mod row_basis;
mod rows;
mod segments;
mod sending;
mod target;
mod values;
mod ways;

pub use basis::Basis;
pub use inbound::inbound_at;
pub use outbound::outbound_at;
pub use rows::rows_at;

//! The models of a log: which of them is in force at a record.
//!
//! Contract: `is_model` tells exactly which records have a model, and `in_force` is the last of so many. The definitions are in
//! `specs/InForce`.
#![tactic(auto)]

mod models;

pub use models::{in_force, is_model};

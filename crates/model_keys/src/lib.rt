//! What stands at the keys of a table of TOML text, kind by kind of key, or the first finding with the path to it.
//!
//! Contract: each reader gives what the key says or its first finding, exactly as its definition. The definitions are in
//! `specs/`: `Finding` (values, findings and paths), `Keys` (the kinds of keys), `Each` (lists, element by element),
//! `Fields` (fields by their names), and `Says` (what stands at a key, and no order of checks).
#![tactic(auto)]

mod field_keys;
mod finding;
mod lists;
mod name_keys;
mod number_keys;
mod tables;

pub use field_keys::field_at;
pub use finding::{Cause, Finding, ReadError, at, element, unknown, within};
pub use lists::{
    any_list_at, any_list_or_none_at, list_at, list_of, list_or_none_at, some_list_at,
};
pub use name_keys::{
    fixed_name, name_at, name_of, new_name, new_name_at, new_name_of, new_segment_name_at,
    reference_at, segment_name_of, segment_type_at,
};
pub use number_keys::{bool_or_at, number_of};
pub use tables::{entry_of, get, only_known, table_of};

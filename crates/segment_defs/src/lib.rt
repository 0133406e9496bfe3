//! Segment types with their definitions, one a version, and IDoc types, which are hierarchies of segment types.
//!
//! Contract: what a name, a release or a field stands for is looked up exactly, in definitions and IDoc types that keep
//! their rules, and `is_valid` tells whether the rules are kept. The definitions are in `specs/`: `Name`, `Version`,
//! `SegmentType`, `Definitions`, `IdocType`. Their limits are constants, as `MOST_FIELDS`.
#![tactic(auto)]

mod definitions;
mod field;
mod idoc_type;
mod limits;
mod rules;
mod segment_type;
mod type_no;
mod type_rules;
mod version;
mod version_no;

pub use definitions::{Definitions, cut};
pub use field::{Field, without_blanks};
pub use idoc_type::{IdocType, TypePlace};
pub use limits::{
    LONGEST_NAME, MOST_BYTES, MOST_FIELDS, MOST_LEVELS, MOST_TIMES, MOST_TYPES, MOST_VERSIONS,
};
pub use rules::{is_name, is_name_within, is_segment_name};
pub use segment_type::SegmentType;
pub use type_no::TypeNo;
pub use type_rules::levels_to;
pub use version::Version;
pub use version_no::VersionNo;

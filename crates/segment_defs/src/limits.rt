//! The limits of definitions and IDoc types.

/// The most bytes of a name.
pub const LONGEST_NAME: usize = 30;

/// The most segment types of a landscape.
pub const MOST_TYPES: usize = 1000;

/// The most definitions of a segment type.
pub const MOST_VERSIONS: usize = 32;

/// The most fields of a definition.
pub const MOST_FIELDS: usize = 200;

/// The most bytes that the fields of a definition take together, and so the most of one field.
pub const MOST_BYTES: usize = 1000;

/// The most levels of an IDoc type.
pub const MOST_LEVELS: usize = 99;

/// The greatest number of segments of one type below one segment.
pub const MOST_TIMES: u32 = 10_000;

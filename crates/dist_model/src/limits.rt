//! The limits of a model's lists and names, beside those of `segment_defs`.

/// The most releases.
pub const MOST_RELEASES: usize = 32;

/// The most bytes of the name of a release.
pub const LONGEST_RELEASE: usize = 4;

/// The most systems.
pub const MOST_SYSTEMS: usize = 16;

/// The most bytes of the name of a system.
pub const LONGEST_SYSTEM: usize = 10;

/// The most functions that a system offers.
pub const MOST_FUNCTIONS: usize = 100;

/// The most IDoc types.
pub const MOST_IDOC_TYPES: usize = 200;

/// The most entries of an IDoc type.
pub const MOST_ENTRIES: usize = 500;

/// The most kinds.
pub const MOST_KINDS: usize = 500;

/// The most message types.
pub const MOST_MESSAGES: usize = 500;

/// The most reduced message types.
pub const MOST_REDUCED: usize = 500;

/// The most fields that a reduced message type keeps.
pub const MOST_KEPT: usize = 1000;

/// The most filters.
pub const MOST_FILTERS: usize = 500;

/// The most rows.
pub const MOST_ROWS: usize = 2000;

/// The most groups of a row.
pub const MOST_GROUPS: usize = 64;

/// The most values of a condition.
pub const MOST_VALUES: usize = 1000;

/// The most profiles of what is sent.
pub const MOST_OUTBOUND: usize = 2000;

/// The most documents of a unit.
pub const MOST_PACKET: u32 = 1000;

/// The most values that a profile replaces.
pub const MOST_CONVERSIONS: usize = 1000;

/// The most bytes of the name of a port.
pub const LONGEST_PORT: usize = 10;

/// The most rules that name queues of one side.
pub const MOST_RULES: usize = 8;

/// The most profiles of what is received.
pub const MOST_INBOUND: usize = 2000;

//! The keys of a model's text, and what stands for those that may be absent.

pub(crate) const RELEASES: &str = "releases";

pub(crate) const SYSTEM: &str = "system";

pub(crate) const SEGMENT: &str = "segment";

pub(crate) const IDOCTYPE: &str = "idoctype";

pub(crate) const NAME: &str = "name";

pub(crate) const CLIENT: &str = "client";

pub(crate) const FUNCTIONS: &str = "functions";

pub(crate) const TYPE: &str = "type";

pub(crate) const VERSION: &str = "version";

pub(crate) const RELEASE: &str = "release";

pub(crate) const ADDS: &str = "adds";

pub(crate) const PARENT: &str = "parent";

pub(crate) const MANDATORY: &str = "mandatory";

pub(crate) const MIN: &str = "min";

pub(crate) const MAX: &str = "max";

pub(crate) const KIND: &str = "kind";

pub(crate) const MESSAGE: &str = "message";

pub(crate) const REDUCED: &str = "reduced";

pub(crate) const FILTER: &str = "filter";

pub(crate) const ROW: &str = "row";

pub(crate) const OUTBOUND: &str = "outbound";

pub(crate) const REMOVE: &str = "remove";

pub(crate) const INBOUND: &str = "inbound";

/// The keys of the whole text.
pub(crate) const TOP_KEYS: [&str; 11] = [
    RELEASES, SYSTEM, SEGMENT, IDOCTYPE, KIND, MESSAGE, REDUCED, FILTER, ROW, OUTBOUND, INBOUND,
];

/// The keys of a system.
pub(crate) const SYSTEM_KEYS: [&str; 3] = [NAME, CLIENT, FUNCTIONS];

/// The keys of a segment type.
pub(crate) const SEGMENT_KEYS: [&str; 2] = [TYPE, VERSION];

/// The keys of a definition of a segment type.
pub(crate) const VERSION_KEYS: [&str; 3] = [NAME, RELEASE, ADDS];

/// The keys of an IDoc type.
pub(crate) const IDOCTYPE_KEYS: [&str; 2] = [NAME, SEGMENT];

/// The keys of an entry of an IDoc type.
pub(crate) const ENTRY_KEYS: [&str; 5] = [TYPE, PARENT, MANDATORY, MIN, MAX];

/// The client of a system that names none.
pub(crate) const STANDARD_CLIENT: [u8; 3] = *b"000";

/// The function that a system offers that names none.
pub(crate) const STANDARD_FUNCTION: &str = "IDOC_INBOUND_ASYNCHRONOUS";

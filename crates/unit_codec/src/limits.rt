//! The limits of fields, beside those that their types have.

/// The most bytes of a name of a message, a kind, a field, a function or a segment.
pub(crate) const MOST_NAME: usize = 30;

/// The most bytes of a segment's data.
pub(crate) const MOST_DATA: usize = 1_000;

/// The most segments of a document.
pub(crate) const MOST_SEGMENTS: u32 = 10_000;

/// The most queues of a unit in one direction.
pub(crate) const MOST_QUEUES: u8 = 8;

//! Places in a record.

/// A part of a record: its offset from the record's first byte and its length, both in bytes.
#[derive(Clone, Copy, PartialEq, Eq)]
pub struct Span {
    /// The offset of its first byte, from 0.
    pub offset: usize,
    /// How many bytes it has.
    pub length: usize,
}

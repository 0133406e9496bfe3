//! The place of a segment in its document, as its data record tells it.

/// Where a segment stands in its document.
#[derive(Clone, Copy, PartialEq, Eq)]
pub struct Place {
    /// SEGNUM: its number in preorder, from 1, below 1,000,000.
    pub segnum: u32,
    /// PSGNUM: the number of the segment above it, and 0 at the root level.
    pub parent: u32,
    /// HLEVEL: its level, 1 at the root level, below 100.
    pub level: u8,
}

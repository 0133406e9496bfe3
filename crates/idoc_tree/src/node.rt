//! A document as a tree of its segments.

use ale_base::Items;
use idoc_record::Control;
use segment_defs::{TypeNo, VersionNo};

/// A segment of a document, with the segments below it.
#[derive(Drop)]
pub struct Node {
    /// The segment type.
    pub segment: TypeNo,
    /// The definition of that type which the data follow.
    pub version: VersionNo,
    /// The data, without blanks at their end.
    pub sdata: Items<u8>,
    /// The segments below this one, in order.
    pub children: Vec<Node>,
}

/// A document: its control record and its segments.
#[derive(Drop)]
pub struct Doc {
    /// The control record.
    pub control: Control,
    /// The segments at the root level, in order.
    pub forest: Vec<Node>,
}

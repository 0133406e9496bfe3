//! An outbound document, as it is shown.

use ale_base::Items;
use idoc_record::Control;
use status_log::SegmentLine;

/// An outbound document: its control record, and its segments in order, each with its place.
#[derive(Drop)]
pub struct ShownDocument {
    /// The control record.
    pub control: Control,
    /// The segments.
    pub lines: Items<SegmentLine>,
}

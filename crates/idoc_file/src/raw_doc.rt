//! A document as it stands in a file.

use ale_base::Items;
use idoc_record::{Control, Data};

/// A document of a file: its control record, and the data records of its segments in order.
#[derive(Drop)]
pub struct RawDoc {
    /// The control record.
    pub control: Control,
    /// The segments, in the order of the file.
    pub segments: Items<Data>,
    /// The number of its control line, counted from 1, and 0 where it was read from no file.
    pub line: u32,
}

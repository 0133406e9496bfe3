//! Fields of segment types, and the filters on them.

use crate::MessageNo;
use ale_base::Items;
use segment_defs::TypeNo;

/// A field of a segment type.
#[derive(Clone, Copy, PartialEq, Eq)]
pub struct FieldPlace {
    /// The segment type.
    pub segment: TypeNo,
    /// The field, by its place from 0 among those of the newest definition.
    pub field: u16,
}

/// A filter of a message type: segments of one type are sent by the value of a field.
#[derive(Drop)]
pub struct Filter {
    /// The name, one of its own among the filters of the message type.
    pub name: Items<u8>,
    /// The message type.
    pub message: MessageNo,
    /// The segment type.
    pub segment: TypeNo,
    /// The field whose value counts, by its place from 0 among those of the newest definition.
    pub field: u16,
}

//! A posting, and what comes of it.

use ale_base::{FieldValue, Items};

/// What a document is to make of an object.
#[derive(Drop)]
pub struct Posting {
    /// The name of the object's kind.
    pub kind: Items<u8>,
    /// The key of the object. It is empty exactly where the document has none.
    pub key: Items<u8>,
    /// The fields that get a value; a blank one empties its field.
    pub fields: Items<FieldValue>,
    /// The names of the fields that may not be blank then.
    pub required: Items<Items<u8>>,
    /// Whether the object may not be there.
    pub insert: bool,
}

/// What comes of a posting.
#[derive(Clone, Copy, PartialEq, Eq)]
pub enum Outcome {
    /// The object was made or changed.
    Posted,
    /// It was not, for this reason: 1 where there is no key, 2 where a field that must be filled would be blank, 3 where the object
    /// is there already.
    Refused(u8),
}

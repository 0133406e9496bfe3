//! An object, as it is listed.

use ale_base::{FieldValue, Items};

/// An object with its fields that are not blank, in byte order of their names.
#[derive(Drop)]
pub struct Object {
    /// The name of its kind.
    pub kind: Items<u8>,
    /// Its key.
    pub key: Items<u8>,
    /// Its fields that are not blank.
    pub fields: Items<FieldValue>,
}

//! A field of an object and its value.

use crate::Items;
use std::alloc::AllocError;

/// A field of an object, and what it holds.
#[derive(Drop)]
pub struct FieldValue {
    /// The name of the field.
    pub field: Items<u8>,
    /// Its value.
    pub value: Items<u8>,
}

impl Clone for FieldValue {
    ghost use Rattle.std.specs.Prelude.{◌≡◌};

    ghost is_clone = { λ field copy. copy ≡ field };

    fn clone(&self) -> Result<FieldValue, AllocError> {
        Ok(FieldValue {
            field: self.field.clone()?,
            value: self.value.clone()?,
        })
    }
}

/// A change of an object: the fields that get a value, in the order given.
#[derive(Drop)]
pub struct Change {
    /// The name of the object's kind.
    pub kind: Items<u8>,
    /// The key of the object.
    pub key: Items<u8>,
    /// The fields.
    pub fields: Items<FieldValue>,
}

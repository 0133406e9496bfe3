//! A change pointer, and the object that it is of.

use ale_base::Items;
use dist_model::MessageNo;

/// A field of an object changed, and documents of a message type are to tell of it.
#[derive(Drop)]
pub struct Pointer {
    /// The name of the object's kind.
    pub kind: Items<u8>,
    /// The object's key.
    pub key: Items<u8>,
    /// The name of the field.
    pub field: Items<u8>,
    /// The message type, one of the model by which the pointer was noted.
    pub message: MessageNo,
}

/// An object, by its kind and its key.
#[derive(Drop)]
pub struct ObjectKey {
    /// The name of its kind.
    pub kind: Items<u8>,
    /// Its key.
    pub key: Items<u8>,
}

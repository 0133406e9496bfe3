//! A kind of business objects.

use ale_base::Items;
use segment_defs::TypeNo;

/// A kind of business objects, as materials. An object is told from the others of its kind by its key.
#[derive(Drop)]
pub struct Kind {
    /// The name.
    pub name: Items<u8>,
    /// The segment type whose fields are those of the objects.
    pub segment: TypeNo,
    /// The field of that type that is the key.
    pub key: u16,
}

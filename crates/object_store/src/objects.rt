//! The objects of a system, and what is asked of them. What postings and puts make of them is in `putting.rt`.

ghost use Rattle.std.specs.Prelude.{◌≡◌, ◌++◌, IfOk, OnOk, map};
ghost use Rattle.object_store.specs.Objects.{IsAscendingKind, listed_field, listed_object, value_in};
ghost use Rattle.object_store.specs.Texts.{IsAscending};

use crate::Object;
use crate::text_map::TextMap;
use ale_base::{FieldValue, Items, OutOfMemory};
use std::alloc::Global;
use std::marker::Model;

/// The objects of a system. Contracts see a map from kind and key to the fields that are not blank. What is asked of one object
/// takes a time as the logarithm of their number.
#[derive(Drop)]
pub struct Objects {
    kinds: TextMap<TextMap<TextMap<Items<u8>>>>,
}

impl Model for Objects {
    ghost use Rattle.object_store.specs.Objects.{ObjectsOf};

    ghost Value = { ObjectsOf };

    ghost view = { λ objects. objects.kinds };
}

impl Objects {
    ghost use Rattle.std.specs.Prelude.{◌≡◌, IfOk, OnOk, OnErr, is_some};
    ghost use Rattle.std.specs.Option.{option_copied};
    ghost use Rattle.object_store.specs.Listing.{IsInOrder};
    ghost use Rattle.object_store.specs.Objects.{no_objects, listed, object_at, value_of, with_object};

    /// No objects. It takes no memory.
    pub fn new(alloc: Global) -> Objects
        ensures { result ≡ no_objects }
    {
        Objects {
            kinds: TextMap::new(alloc),
        }
    }

    /// The value of a field of an object, without blanks at its end; no bytes where the field is blank. None exactly where the
    /// object is not there.
    pub fn value(&self, kind: &[u8], key: &[u8], field: &[u8]) -> Option<&[u8]>
        ensures { option_copied result ≡ value_of kind.now key.now field.now self.now }
    {
        match self.fields(kind, key) {
            None => None,
            Some(fields) => Some(bytes_in(fields, field)),
        }
    }

    /// Whether an object is there.
    pub fn contains(&self, kind: &[u8], key: &[u8]) -> bool
        ensures { result ≡ is_some (object_at kind.now key.now self.now) }
    {
        self.fields(kind, key).is_some()
    }

    /// All objects in byte order of their kinds and keys, with their fields that are not blank in byte order of their names.
    pub fn list(&self, alloc: Global) -> Result<Items<Object>, OutOfMemory>
        ensures all { IfOk result (λ objects. objects ≡ listed self.now) }
        ensures in_order { IfOk result (λ objects. IsInOrder objects) }
    {
        let mut list = Items::new(alloc);
        for (kind, objects) in self.kinds.iter() {
            push_kind(alloc, kind.as_slice(), objects, &mut list)?;
        }
        Ok(list)
    }

    /// The fields of an object that are not blank. None exactly where the object is not there.
    pub(crate) fn fields(&self, kind: &[u8], key: &[u8]) -> Option<&TextMap<Items<u8>>>
        ensures { option_copied result ≡ object_at kind.now key.now self.now }
    {
        match self.kinds.get(kind) {
            None => None,
            Some(objects) => objects.get(key),
        }
    }

    /// Gives an object these fields, whether or not it was there. After an `Err` all is as before.
    pub(crate) fn replace(
        &mut self,
        alloc: Global,
        kind: &[u8],
        key: &[u8],
        fields: TextMap<Items<u8>>,
    ) -> Result<(), OutOfMemory>
        ensures ok { OnOk result (self.new ≡ with_object kind.now key.now fields self.old) }
        ensures err { OnErr result (self.new ≡ self.old) }
    {
        self.kinds.insert_below(alloc, kind, key, fields)
    }
}

/// The bytes of a field; none where it is blank.
pub(crate) fn bytes_in<'f>(fields: &'f TextMap<Items<u8>>, field: &[u8]) -> &'f [u8]
    ensures { result.now ≡ value_in field.now fields.now }
{
    match fields.get(field) {
        None => &[],
        Some(bytes) => bytes.as_slice(),
    }
}

/// Adds the objects of a kind to a list.
fn push_kind(
    alloc: Global,
    kind: &[u8],
    objects: &TextMap<TextMap<Items<u8>>>,
    list: &mut Items<Object>,
) -> Result<(), OutOfMemory>
    ensures listed { OnOk result (list.new ≡ list.old ++ map (listed_object kind.now) objects.now) }
    ensures ascending { OnOk result (IsAscendingKind objects.now) }
{
    for (key, fields) in objects.iter() {
        list.push(Object {
            kind: Items::from_slice(alloc, kind)?,
            key: Items::from_slice(alloc, key.as_slice())?,
            fields: listed_fields(alloc, fields)?,
        })?;
    }
    Ok(())
}

/// The fields of an object, as they are listed.
fn listed_fields(
    alloc: Global,
    fields: &TextMap<Items<u8>>,
) -> Result<Items<FieldValue>, OutOfMemory>
    ensures listed { IfOk result (λ list. list ≡ map listed_field fields.now) }
    ensures ascending { IsAscending fields.now }
{
    let mut list = Items::new(alloc);
    for (field, value) in fields.iter() {
        list.push(FieldValue {
            field: Items::from_slice(alloc, field.as_slice())?,
            value: Items::from_slice(alloc, value.as_slice())?,
        })?;
    }
    Ok(list)
}

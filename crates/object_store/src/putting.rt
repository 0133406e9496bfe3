//! Postings and puts: what changes objects.

ghost use Rattle.std.specs.Prelude.{◌≡◌, Bool, IfOk, OnOk, OnErr};
ghost use Rattle.object_store.specs.Posting.{applied, changed_fields, judged, lacks_one, outcome_of, put_in, with_field, with_fields};

use crate::objects::bytes_in;
use crate::text_map::TextMap;
use crate::{Objects, Outcome, Posting};
use ale_base::{FieldValue, Items, OutOfMemory, trimmed};
use std::alloc::Global;

/// Makes a posting: the fields that it has replace those of its object, which is made where it is not there. It is refused by
/// the first of these reasons that applies, and then changes nothing: 1, it has no key; 2, a field that must be filled would be
/// blank; 3, it is to make an object, and that is there. After an `Err` all is as before. It takes a time as the logarithm of
/// the number of objects, and for the fields of the object and of the posting.
pub fn apply(
    alloc: Global,
    objects: &mut Objects,
    posting: &Posting,
) -> Result<Outcome, OutOfMemory>
    ensures outcome { IfOk result (λ outcome. outcome ≡ outcome_of posting.now objects.old) }
    ensures posted { OnOk result (objects.new ≡ applied posting.now objects.old) }
    ensures err { OnErr result (objects.new ≡ objects.old) }
{
    let kind = posting.kind.as_slice();
    let key = posting.key.as_slice();
    let fields = changed(alloc, objects, kind, key, posting.fields.as_slice())?;
    match judged(posting, &fields, objects.contains(kind, key)) {
        Outcome::Posted => {
            objects.replace(alloc, kind, key, fields)?;
            Ok(Outcome::Posted)
        }
        Outcome::Refused(reason) => Ok(Outcome::Refused(reason)),
    }
}

/// Gives fields of an object values; where the object is not there, it is made. Blanks at the end of a value are no part of it,
/// and a blank value empties its field. All other fields stay. After an `Err` all is as before.
pub fn put(
    alloc: Global,
    objects: &mut Objects,
    kind: &[u8],
    key: &[u8],
    fields: &[FieldValue],
) -> Result<(), OutOfMemory>
    ensures ok { OnOk result (objects.new ≡ put_in kind.now key.now fields.now objects.old) }
    ensures err { OnErr result (objects.new ≡ objects.old) }
{
    let fields = changed(alloc, objects, kind, key, fields)?;
    objects.replace(alloc, kind, key, fields)
}

/// What comes of a posting whose object would have these fields.
fn judged(posting: &Posting, fields: &TextMap<Items<u8>>, exists: bool) -> Outcome
    ensures { result ≡ judged posting.now fields.now exists }
{
    if posting.key.is_empty() {
        return Outcome::Refused(1);
    }
    if lacks_one(fields, posting.required.as_slice()) {
        return Outcome::Refused(2);
    }
    if posting.insert && exists {
        return Outcome::Refused(3);
    }
    Outcome::Posted
}

/// Whether one of these fields is blank.
fn lacks_one(fields: &TextMap<Items<u8>>, names: &[Items<u8>]) -> bool
    ensures { result ≡ lacks_one names.now fields.now }
{
    names
        .iter()
        .any(|name| bytes_in(fields, name.as_slice()).is_empty())
}

/// What the fields of an object are once these get values.
fn changed(
    alloc: Global,
    objects: &Objects,
    kind: &[u8],
    key: &[u8],
    values: &[FieldValue],
) -> Result<TextMap<Items<u8>>, OutOfMemory>
    ensures { IfOk result (λ fields. fields ≡ changed_fields kind.now key.now values.now objects.now) }
{
    let mut fields = match objects.fields(kind, key) {
        None => TextMap::new(alloc),
        Some(fields) => fields.copied()?,
    };
    set_fields(alloc, &mut fields, values)?;
    Ok(fields)
}

/// Gives fields values, one after the other.
fn set_fields(
    alloc: Global,
    fields: &mut TextMap<Items<u8>>,
    values: &[FieldValue],
) -> Result<(), OutOfMemory>
    ensures { OnOk result (fields.new ≡ with_fields values.now fields.old) }
{
    for value in values {
        set_field(alloc, fields, value)?;
    }
    Ok(())
}

/// Gives a field a value.
fn set_field(
    alloc: Global,
    fields: &mut TextMap<Items<u8>>,
    value: &FieldValue,
) -> Result<(), OutOfMemory>
    ensures { OnOk result (fields.new ≡ with_field fields.old value.now) }
{
    let bytes = trimmed(value.value.as_slice());
    if bytes.is_empty() {
        fields.remove(value.field.as_slice());
        return Ok(());
    }
    let bytes = Items::from_slice(alloc, bytes)?;
    fields.insert(alloc, value.field.as_slice(), bytes)
}

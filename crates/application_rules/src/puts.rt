//! Which Puts may follow a log.

ghost use Rattle.std.specs.Prelude.{◌≡◌, ◌<◌, length};
ghost use Rattle.std.specs.List.{list_any};
ghost use Rattle.std.specs.Option.{option_copied};
ghost use Rattle.ale_base.specs.Text.{is_text};
ghost use Rattle.segment_defs.specs.Definitions.{AreDefinitions};
ghost use Rattle.unit_core.specs.Queues.{are_different, has_name};
ghost use Rattle.change_pointers.specs.Master.{length_at};
ghost use Rattle.application_rules.specs.Puts.{are_settable, field_names, field_of_name, is_key, kind_named, may_change, may_get, may_put};

use ale_base::FieldValue;
use change_pointers::name_at;
use dist_model::{Kind, Lists, Model, all_fields};
use segment_defs::{Definitions, Field};

/// Whether a Put may follow a log whose model this is: its kind is one of the model, and its key is not empty and has room in the
/// key field of the kind. There is at least one field, and each is one of the kind, not the key field, given once, and has room for
/// its value. It takes no memory.
pub fn may_put(model: &Model, kind: &[u8], key: &[u8], fields: &[FieldValue]) -> bool
    ensures { result ≡ may_put model.now kind.now key.now fields.now }
{
    let lists = model.as_lists();
    match kind_named(lists, kind) {
        None => false,
        Some(kind) => may_change(&lists.definitions, kind, key, fields),
    }
}

/// The kind of a name.
fn kind_named<'m>(lists: &'m Lists, name: &[u8]) -> Option<&'m Kind>
    ensures { option_copied result ≡ kind_named name.now lists.now }
{
    lists.kinds.iter().find(|kind| name == kind.name.as_slice())
}

/// Whether an object of a kind may get these values.
fn may_change(definitions: &Definitions, kind: &Kind, key: &[u8], fields: &[FieldValue]) -> bool
    requires definitions { AreDefinitions definitions.now }
    requires known { kind.now.segment < length definitions.now.types }
    ensures { result ≡ may_change definitions.now key.now fields.now kind.now }
{
    let own = all_fields(definitions, kind.segment);
    is_key(own, kind.key, key)
        && !fields.is_empty()
        && are_settable(own, kind.key, fields)
        && are_different(fields)
}

/// Whether a key is one of objects whose key field is at this place.
fn is_key(own: &[Field], key_place: u16, key: &[u8]) -> bool
    ensures { result ≡ is_key own.now key_place key.now }
{
    !key.is_empty() && key.len() <= length_at(own, key_place)
}

/// The length of the field at a place; 0 where there is none.
fn length_at(own: &[Field], place: u16) -> usize
    ensures { result ≡ length_at own.now place }
{
    match own.get(usize::from(place)) {
        None => 0,
        Some(field) => usize::from(field.length),
    }
}

/// Whether each of these fields may get its value.
fn are_settable(own: &[Field], key_place: u16, fields: &[FieldValue]) -> bool
    ensures { result ≡ are_settable own.now key_place fields.now }
{
    fields.iter().all(|given| may_get(own, key_place, given))
}

/// Whether a field may get its value.
fn may_get(own: &[Field], key_place: u16, given: &FieldValue) -> bool
    ensures { result ≡ may_get own.now key_place given.now }
{
    let name = given.field.as_slice();
    match field_of_name(own, name) {
        None => false,
        Some(field) => {
            name != name_at(own, key_place) && given.value.len() <= usize::from(field.length)
        }
    }
}

/// The field of a name.
fn field_of_name<'f>(own: &'f [Field], name: &[u8]) -> Option<&'f Field>
    ensures { option_copied result ≡ field_of_name name.now own.now }
{
    own.iter().find(|field| name == field.name.as_slice())
}

/// Whether no field is given twice.
fn are_different(fields: &[FieldValue]) -> bool
    ensures { result ≡ are_different (field_names fields.now) }
{
    for (place, given) in fields.iter().enumerate() {
        if has_name(given.field.as_slice(), &fields[place + 1..]) {
            return false;
        }
    }
    true
}

/// Whether a field of this name is among some.
fn has_name(name: &[u8], fields: &[FieldValue]) -> bool
    ensures { result ≡ has_name name.now (field_names fields.now) }
{
    any_named(name, fields)
}

fn any_named(name: &[u8], fields: &[FieldValue]) -> bool
    ensures { result ≡ list_any (λ other. is_text other.field name.now) fields.now }
{
    fields.iter().any(|other| other.field.as_slice() == name)
}

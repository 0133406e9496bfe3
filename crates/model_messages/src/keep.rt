//! The fields that a reduced message type keeps.

ghost use Rattle.std.specs.Prelude.{◌≡◌, ◌<◌, ◌==◌, nat_eq, IfOk, IfSome, length, map, position};
ghost use Rattle.std.specs.List.{list_any, IsDistinct};
ghost use Rattle.toml.specs.View.{view, table_view, items_view};
ghost use Rattle.segment_defs.specs.Definitions.{AreDefinitions};
ghost use Rattle.dist_model.specs.Model.{type_names};
ghost use Rattle.model_keys.specs.Finding.{Gives};
ghost use Rattle.model_messages.specs.Reduced.{keep_at, keep_of, kept_of, place_in_text, place_named, place_split, type_among};

use crate::fields::known_field;
use crate::keys::KEEP;
use ale_base::{Items, OutOfMemory};
use dist_model::{FieldPlace, MOST_KEPT, Names, Numbers};
use model_keys::{Cause, ReadError, at, list_at, within};
use segment_defs::{Definitions, TypeNo, TypePlace};
use std::alloc::Global;
use toml::{Table, Value};

/// The fields that are kept, each of a segment type of these entries.
#[tactic(auto, unfolding(crate::specs::Reduced::keep_at))]
pub(crate) fn keep_at(
    alloc: Global,
    definitions: &Definitions,
    segments: &Names,
    entries: &[TypePlace],
    table: &Table,
) -> Result<Items<FieldPlace>, ReadError>
    requires definitions { AreDefinitions definitions.now }
    requires segments { segments.now ≡ type_names definitions.now.types }
    requires entries { IsDistinct nat_eq (map (λ entry. entry.segment) entries.now) }
    ensures { Gives (λ keep. keep) result
        (keep_at definitions.now entries.now (table_view table.now)) }
{
    let values = list_at(alloc, MOST_KEPT, KEEP, table)?;
    // Both lists may be long: so the entries are not walked for each element.
    let types = types_of(alloc, entries)?;
    keep_of(alloc, definitions, segments, &types, values)
}

/// The segment types of entries, all different.
fn types_of(alloc: Global, entries: &[TypePlace]) -> Result<Numbers, OutOfMemory>
    requires { IsDistinct nat_eq (map (λ entry. entry.segment) entries.now) }
    ensures { IfOk result (λ types. types ≡ map (λ entry. entry.segment) entries.now) }
{
    let mut types = Numbers::new(alloc);
    for entry in entries {
        let segment = entry.segment;
        types.add(usize::from(segment.0))?;
    }
    Ok(types)
}

/// The fields of a list, each of one of these segment types.
fn keep_of(
    alloc: Global,
    definitions: &Definitions,
    segments: &Names,
    types: &Numbers,
    values: &[Value],
) -> Result<Items<FieldPlace>, ReadError>
    requires definitions { AreDefinitions definitions.now }
    requires segments { segments.now ≡ type_names definitions.now.types }
    ensures { Gives (λ keep. keep) result
        (keep_of definitions.now types.now (items_view values.now)) }
{
    let mut keep = Items::new(alloc);
    for (place, value) in values.iter().enumerate() {
        match kept_of(alloc, definitions, segments, types, value) {
            Err(error) => return Err(within(alloc, KEEP, place, error)),
            Ok(kept) => keep.push(kept)?,
        }
    }
    Ok(keep)
}

#[tactic(auto, unfolding(crate::specs::Reduced::kept_of))]
fn kept_of(
    alloc: Global,
    definitions: &Definitions,
    segments: &Names,
    types: &Numbers,
    value: &Value,
) -> Result<FieldPlace, ReadError>
    requires definitions { AreDefinitions definitions.now }
    requires segments { segments.now ≡ type_names definitions.now.types }
    ensures { Gives (λ kept. kept) result (kept_of definitions.now types.now (view value.now)) }
{
    match value {
        Value::String(text) => {
            match place_in_text(definitions, segments, types, text.as_bytes()) {
                None => Err(ReadError::Found(at(alloc, Cause::Wrong, "")?)),
                Some(kept) => Ok(kept),
            }
        }
        _ => Err(ReadError::Found(at(alloc, Cause::Wrong, "")?)),
    }
}

/// The field that the text `TYPE.FIELD` names.
fn place_in_text(
    definitions: &Definitions,
    segments: &Names,
    types: &Numbers,
    text: &[u8],
) -> Option<FieldPlace>
    requires definitions { AreDefinitions definitions.now }
    requires segments { segments.now ≡ type_names definitions.now.types }
    ensures { result ≡ place_in_text definitions.now types.now text.now }
{
    match dot_in(text) {
        None => None,
        Some(dot) => place_split(definitions, segments, types, text, dot),
    }
}

/// The field that a text names whose dot is at this place.
fn place_split(
    definitions: &Definitions,
    segments: &Names,
    types: &Numbers,
    text: &[u8],
    dot: usize,
) -> Option<FieldPlace>
    requires definitions { AreDefinitions definitions.now }
    requires segments { segments.now ≡ type_names definitions.now.types }
    requires dot { dot < length text.now }
    ensures { result ≡ place_split definitions.now types.now text.now dot }
{
    let segment = &text[..dot];
    let field = &text[dot + 1..];
    place_named(definitions, segments, types, segment, field)
}

/// The place of the first dot.
fn dot_in(text: &[u8]) -> Option<usize>
    ensures place { result ≡ position (λ byte. byte == 46) text.now }
    ensures within { IfSome result (λ dot. dot < length text.now) }
{
    text.iter().position(|byte| *byte == b'.')
}

/// The field of one of these segment types, by the names of both.
fn place_named(
    definitions: &Definitions,
    segments: &Names,
    types: &Numbers,
    segment: &[u8],
    field: &[u8],
) -> Option<FieldPlace>
    requires definitions { AreDefinitions definitions.now }
    requires segments { segments.now ≡ type_names definitions.now.types }
    ensures { result ≡ place_named definitions.now types.now segment.now field.now }
{
    match type_among(definitions, segments, types, segment) {
        None => None,
        Some(segment) => match known_field(definitions, segment, field) {
            None => None,
            Some(field) => Some(FieldPlace { segment, field }),
        },
    }
}

/// The segment type of this name, if it is one of these.
fn type_among(
    definitions: &Definitions,
    segments: &Names,
    types: &Numbers,
    name: &[u8],
) -> Option<TypeNo>
    requires definitions { AreDefinitions definitions.now }
    requires segments { segments.now ≡ type_names definitions.now.types }
    ensures among { result ≡ type_among definitions.now types.now name.now }
    ensures known { IfSome result (λ segment. segment < length definitions.now.types) }
{
    match segments.place(name) {
        // there are at most 1,000 segment types
        Some(place) if is_one_of(types, place) => Some(TypeNo(place as u16)),
        _ => None,
    }
}

/// Whether a segment type is one of these.
fn is_one_of(types: &Numbers, segment: usize) -> bool
    ensures { result ≡ list_any (nat_eq segment) types.now }
{
    types.place(segment).is_some()
}

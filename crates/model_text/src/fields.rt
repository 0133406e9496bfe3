//! The fields that a definition of a segment type adds.

ghost use Rattle.std.specs.Prelude.{◌≡◌, ◌+◌, ◌<◌, ◌≤◌, ◌==◌, ◌∷◌, ◌++◌, [], IfOk, IfSome, length, position};
ghost use Rattle.std.specs.Option.{option_map};
ghost use Rattle.toml.specs.View.{view, items_view};
ghost use Rattle.segment_defs.specs.declared.limits.TheConstants.{MOST_BYTES};
ghost use Rattle.segment_defs.specs.Version.{width_of};
ghost use Rattle.model_keys.specs.Finding.{Gives};
ghost use Rattle.model_text.specs.Fields.{digits_on, field_names, field_of, field_parts, fields_of, is_length, length_in, parts_at, parts_of};

use crate::keys::ADDS;
use ale_base::Items;
use dist_model::Names;
use itoa::Buffer;
use model_keys::{Cause, ReadError, at, new_name, within};
use segment_defs::{Field, LONGEST_NAME, MOST_BYTES, MOST_FIELDS, is_name_within};
use std::alloc::Global;
use toml::Value;

/// The fields, with those that the elements of a list add behind them. The names of all of them are in the table from
/// then on.
pub(crate) fn fields_of(
    alloc: Global,
    fields: Items<Field>,
    names: &mut Names,
    values: &[Value],
) -> Result<Items<Field>, ReadError>
    requires named { names.old ≡ field_names fields }
    requires narrow { width_of fields ≤ MOST_BYTES }
    ensures given { Gives (λ all. all) result (fields_of fields (items_view values.now)) }
    ensures names { IfOk result (λ all. names.new ≡ field_names all) }
    ensures fits { IfOk result (λ all. width_of all ≤ MOST_BYTES) }
{
    let mut width = width(fields.as_slice());
    let mut fields = fields;
    for (place, value) in values.iter().enumerate() {
        match field_of(alloc, fields.as_slice(), width, names, value) {
            Err(error) => return Err(within(alloc, ADDS, place, error)),
            Ok(field) => {
                width += field.length;
                fields.push(field)?;
            }
        }
    }
    Ok(fields)
}

/// How many bytes the fields take together.
fn width(fields: &[Field]) -> u16
    requires { width_of fields.now ≤ MOST_BYTES }
    ensures { result ≡ width_of fields.now }
{
    fields.iter().map(|field| field.length).sum()
}

/// One more field behind some.
#[tactic(auto, unfolding(crate::specs::Fields::field_of))]
fn field_of(
    alloc: Global,
    fields: &[Field],
    width: u16,
    names: &mut Names,
    value: &Value,
) -> Result<Field, ReadError>
    requires named { names.old ≡ field_names fields.now }
    requires width { width ≡ width_of fields.now }
    requires narrow { width ≤ MOST_BYTES }
    ensures given { Gives (λ field. field) result (field_of fields.now (view value.now)) }
    ensures names { IfOk result (λ field. names.new ≡ names.old ++ field.name ∷ []) }
    ensures fits { IfOk result (λ field. width + field.length ≤ MOST_BYTES) }
{
    let (name, length) = parts_of(alloc, value)?;
    if fields.len() >= MOST_FIELDS || usize::from(width) + usize::from(length) > MOST_BYTES {
        return Err(ReadError::Found(at(alloc, Cause::Limit, "")?));
    }
    let name = new_name(alloc, "", names, name)?;
    Ok(Field {
        name,
        offset: width,
        length,
    })
}

/// The name and the length of a field that a value adds.
#[tactic(auto, unfolding(crate::specs::Fields::parts_of))]
fn parts_of(alloc: Global, value: &Value) -> Result<(&[u8], u16), ReadError>
    ensures { Gives (λ parts. (parts.0.now, parts.1)) result (parts_of (view value.now)) }
{
    match value {
        Value::String(text) => match field_parts(text.as_bytes()) {
            Some(parts) => Ok(parts),
            None => Err(ReadError::Found(at(alloc, Cause::Wrong, "")?)),
        },
        _ => Err(ReadError::Found(at(alloc, Cause::Wrong, "")?)),
    }
}

/// The name and the length in a text of both, with one blank between them.
fn field_parts(text: &[u8]) -> Option<(&[u8], u16)>
    ensures { option_map (λ parts. (parts.0.now, parts.1)) result ≡ field_parts text.now }
{
    match blank_in(text) {
        Some(at) => parts_at(text, at),
        None => None,
    }
}

/// The place of the first blank.
fn blank_in(text: &[u8]) -> Option<usize>
    ensures place { result ≡ position (λ byte. byte == 32) text.now }
    ensures within { IfSome result (λ at. at < length text.now) }
{
    text.iter().position(|byte| *byte == b' ')
}

/// The name before a blank and the length behind it.
fn parts_at(text: &[u8], at: usize) -> Option<(&[u8], u16)>
    requires { at < length text.now }
    ensures { option_map (λ parts. (parts.0.now, parts.1)) result ≡ parts_at text.now at }
{
    let name = &text[..at];
    if !is_name_within(LONGEST_NAME, name) {
        return None;
    }
    match length_in(&text[at + 1..]) {
        Some(length) => Some((name, length)),
        None => None,
    }
}

/// The length that a text spells: a decimal number from 1 to the most bytes, in its one spelling.
fn length_in(text: &[u8]) -> Option<u16>
    ensures { result ≡ length_in text.now }
{
    match digits_value(text) {
        Some(length) if is_length(length, text) => Some(length),
        _ => None,
    }
}

/// Whether a number is a length, and is spelled so.
fn is_length(length: u16, text: &[u8]) -> bool
    ensures { result ≡ is_length length text.now }
{
    let mut buffer = Buffer::new();
    let spelling = buffer.format(length).as_bytes();
    length >= 1 && usize::from(length) <= MOST_BYTES && spelling == text
}

/// The number that digits spell. None where a byte is no digit, and where the number gets too large for a length.
fn digits_value(digits: &[u8]) -> Option<u16>
    ensures { result ≡ digits_on 0 digits.now }
{
    let mut number = 0u16;
    for digit in digits {
        if !digit.is_ascii_digit() || usize::from(number) > MOST_BYTES {
            return None;
        }
        number = 10 * number + u16::from(*digit - b'0');
    }
    Some(number)
}

//! The rules of a profile that name queues.

ghost use Rattle.std.specs.Prelude.{◌≡◌, ◌<◌, IfOk, length};
ghost use Rattle.std.specs.List.{list_all};
ghost use Rattle.std.specs.Option.{option_map, ForSome};
ghost use Rattle.toml.specs.View.{view, table_view, items_view};
ghost use Rattle.model_keys.specs.Finding.{Gives};
ghost use Rattle.model_profiles.specs.QueueRules.{is_queue_byte, is_rule_text, may_name, place_at, rule_field_at, rule_field_of, rule_of, rule_segment_at, rule_segment_of, rules_at, rules_of, text_at, text_of, type_named};

use crate::keys::{FIELD, RULE_KEYS, SEGMENT, TEXT};
use crate::segments::NamedSegments;
use crate::values::field_place;
use ale_base::{Items, QueueName};
use dist_model::{FieldPlace, MOST_RULES, QueueRule, has_entry};
use model_keys::{Cause, ReadError, at, entry_of, get, list_or_none_at, within};
use segment_defs::{TypeNo, TypePlace};
use std::alloc::Global;
use toml::{Table, Value};

/// The rules at a key, of a message type with these entries, by the mode of the profile.
#[tactic(auto, unfolding(crate::specs::QueueRules::rules_at))]
pub(crate) fn rules_at(
    alloc: Global,
    on: &NamedSegments<'_>,
    entries: &[TypePlace],
    outmod: u8,
    key: &str,
    table: &Table,
) -> Result<Items<QueueRule>, ReadError>
    ensures { Gives (λ rules. rules) result
        (rules_at on.now.types on.now.definitions entries.now outmod key.now (table_view table.now)) }
{
    let values = list_or_none_at(alloc, MOST_RULES, key, table)?;
    rules_of(alloc, on, entries, outmod, key, values)
}

fn rules_of(
    alloc: Global,
    on: &NamedSegments<'_>,
    entries: &[TypePlace],
    outmod: u8,
    key: &str,
    values: &[Value],
) -> Result<Items<QueueRule>, ReadError>
    ensures { Gives (λ rules. rules) result
        (rules_of on.now.types on.now.definitions entries.now outmod key.now (items_view values.now)) }
{
    let mut rules = Items::new(alloc);
    for (place, value) in values.iter().enumerate() {
        match rule_of(alloc, on, entries, outmod, value) {
            Err(error) => return Err(within(alloc, key, place, error)),
            Ok(rule) => rules.push(rule)?,
        }
    }
    Ok(rules)
}

#[tactic(auto, unfolding(crate::specs::QueueRules::rule_of))]
fn rule_of(
    alloc: Global,
    on: &NamedSegments<'_>,
    entries: &[TypePlace],
    outmod: u8,
    value: &Value,
) -> Result<QueueRule, ReadError>
    ensures { Gives (λ rule. rule) result
        (rule_of on.now.types on.now.definitions entries.now outmod (view value.now)) }
{
    let table = entry_of(alloc, value, &RULE_KEYS)?;
    let text = text_at(alloc, table)?;
    let place = place_at(alloc, on, entries, outmod, table)?;
    Ok(QueueRule { text, place })
}

/// Whether a text is no longer than a name of a queue, and has bytes of one.
fn is_rule_text(text: &[u8]) -> bool
    ensures { result ≡ is_rule_text text.now }
{
    text.len() <= QueueName::MAX_LEN && are_queue_bytes(text)
}

fn are_queue_bytes(text: &[u8]) -> bool
    ensures { result ≡ list_all is_queue_byte text.now }
{
    text.iter().all(|byte| is_queue_byte(*byte))
}

fn is_queue_byte(byte: u8) -> bool
    ensures { result ≡ is_queue_byte byte }
{
    33 <= byte && byte <= 126
}

#[tactic(auto, unfolding(crate::specs::QueueRules::text_of))]
fn text_of(alloc: Global, value: &Value) -> Result<Items<u8>, ReadError>
    ensures { Gives (λ text. text) result (text_of (view value.now)) }
{
    match value {
        Value::String(text) if is_rule_text(text.as_bytes()) => {
            Ok(Items::from_slice(alloc, text.as_bytes())?)
        }
        _ => Err(ReadError::Found(at(alloc, Cause::Wrong, TEXT)?)),
    }
}

/// The text of a rule.
#[tactic(auto, unfolding(crate::specs::QueueRules::text_at))]
fn text_at(alloc: Global, table: &Table) -> Result<Items<u8>, ReadError>
    ensures { Gives (λ text. text) result (text_at (table_view table.now)) }
{
    match get(table, TEXT) {
        None => Ok(Items::new(alloc)),
        Some(value) => text_of(alloc, value),
    }
}

/// The segment type and the field of a rule, which come together: Wrong at the one that is absent.
#[tactic(auto, unfolding(crate::specs::QueueRules::place_at))]
fn place_at(
    alloc: Global,
    on: &NamedSegments<'_>,
    entries: &[TypePlace],
    outmod: u8,
    table: &Table,
) -> Result<Option<FieldPlace>, ReadError>
    ensures { Gives (λ place. place) result
        (place_at on.now.types on.now.definitions entries.now outmod (table_view table.now)) }
{
    let segment = rule_segment_at(
        alloc,
        on,
        entries,
        outmod,
        get(table, SEGMENT),
        get(table, FIELD),
    )?;
    rule_field_at(alloc, on, segment, table)
}

/// The segment type of a rule.
fn rule_segment_at(
    alloc: Global,
    on: &NamedSegments<'_>,
    entries: &[TypePlace],
    outmod: u8,
    segment: Option<&Value>,
    field: Option<&Value>,
) -> Result<Option<TypeNo>, ReadError>
    ensures given { Gives (λ segment. segment) result
        (rule_segment_at on.now.types entries.now outmod
        (option_map (λ value. view value.now) segment.entry) (option_map (λ value. view value.now) field.entry)) }
    ensures known { IfOk result (λ segment. ForSome segment (λ number. number < length on.now.definitions.types)) }
{
    match (segment, field) {
        (Some(segment), _) => rule_segment_of(alloc, on, entries, outmod, segment),
        (None, Some(_)) => Err(ReadError::Found(at(alloc, Cause::Wrong, SEGMENT)?)),
        (None, None) => Ok(None),
    }
}

#[tactic(auto, unfolding(crate::specs::QueueRules::rule_segment_of))]
fn rule_segment_of(
    alloc: Global,
    on: &NamedSegments<'_>,
    entries: &[TypePlace],
    outmod: u8,
    value: &Value,
) -> Result<Option<TypeNo>, ReadError>
    ensures given { Gives (λ segment. segment) result
        (rule_segment_of on.now.types entries.now outmod (view value.now)) }
    ensures known { IfOk result (λ segment. ForSome segment (λ number. number < length on.now.definitions.types)) }
{
    match type_named(on, value) {
        Some(segment) if may_name(entries, outmod, segment) => Ok(Some(segment)),
        _ => Err(ReadError::Found(at(alloc, Cause::Wrong, SEGMENT)?)),
    }
}

/// The segment type that a value names.
fn type_named(on: &NamedSegments<'_>, value: &Value) -> Option<TypeNo>
    ensures named { result ≡ type_named on.now.types (view value.now) }
    ensures known { ForSome result (λ number. number < length on.now.definitions.types) }
{
    let name = match value {
        Value::String(name) => name.as_bytes(),
        _ => return None,
    };
    match on.types.place(name) {
        None => None,
        Some(place) => Some(TypeNo(place as u16)),
    }
}

/// Whether a rule may speak of a segment type.
fn may_name(entries: &[TypePlace], outmod: u8, segment: TypeNo) -> bool
    ensures { result ≡ may_name entries.now outmod segment }
{
    outmod != 4 && has_entry(entries, segment)
}

/// The field of a rule that has a segment type.
fn rule_field_at(
    alloc: Global,
    on: &NamedSegments<'_>,
    segment: Option<TypeNo>,
    table: &Table,
) -> Result<Option<FieldPlace>, ReadError>
    requires { ForSome segment (λ number. number < length on.now.definitions.types) }
    ensures { Gives (λ place. place) result (rule_field_at on.now.definitions segment (table_view table.now)) }
{
    match segment {
        None => Ok(None),
        Some(segment) => rule_field_of(alloc, on, segment, table),
    }
}

#[tactic(auto, unfolding(crate::specs::QueueRules::rule_field_of))]
fn rule_field_of(
    alloc: Global,
    on: &NamedSegments<'_>,
    segment: TypeNo,
    table: &Table,
) -> Result<Option<FieldPlace>, ReadError>
    requires { segment < length on.now.definitions.types }
    ensures { Gives (λ place. place) result (rule_field_of on.now.definitions segment (table_view table.now)) }
{
    let name = match get(table, FIELD) {
        Some(Value::String(name)) => name.as_bytes(),
        _ => return Err(ReadError::Found(at(alloc, Cause::Wrong, FIELD)?)),
    };
    match field_place(on, segment, name) {
        None => Err(ReadError::Found(at(alloc, Cause::Wrong, FIELD)?)),
        Some(field) => Ok(Some(FieldPlace { segment, field })),
    }
}

//! The section of the filters.

ghost use Rattle.std.specs.Prelude.{◌≡◌, ◌<◌, ◌≤◌, IfOk, length};
ghost use Rattle.std.specs.List.{list_any};
ghost use Rattle.toml.specs.View.{view, table_view, items_view};
ghost use Rattle.segment_defs.specs.Definitions.{AreDefinitions};
ghost use Rattle.dist_model.specs.declared.limits.TheConstants.{MOST_MESSAGES};
ghost use Rattle.dist_model.specs.Filter.{is_filter, AreFilters};
ghost use Rattle.dist_model.specs.Message.{message_names};
ghost use Rattle.dist_model.specs.Model.{type_names};
ghost use Rattle.model_keys.specs.Finding.{Gives};
ghost use Rattle.model_keys.specs.Says.{SaysListOrNone};
ghost use Rattle.model_messages.specs.declared.keys.TheConstants.{FILTER};
ghost use Rattle.model_messages.specs.Says.{SaysFilter};
ghost use Rattle.model_messages.specs.Filters.{filter_of, filters_at, filters_of, head_at, type_among_at};

use crate::keys::{FIELD, FILTER, FILTER_KEYS, MESSAGE, NAME, SEGMENT};
use crate::things::{Named, thing_at};
use ale_base::Items;
use dist_model::{
    Filter, MOST_FILTERS, Message, MessageNo, Names, all_fields, entries_at, has_entry,
};
use model_keys::{
    Cause, ReadError, at, entry_of, field_at, list_or_none_at, name_at, segment_type_at, within,
};
use segment_defs::{Definitions, IdocType, LONGEST_NAME, TypeNo, TypePlace};
use std::alloc::Global;
use toml::{Table, Value};

/// The filters of these message types; none where the key is absent.
///
/// The first finding is the answer: at the list Wrong where it is none, and Limit where it has more than `MOST_FILTERS`
/// elements; at an element Wrong where it is no table; then, key by key:
///
/// - a key that is not known (Unknown, the first in byte order);
/// - `name` is absent (Missing) or is no name (Wrong);
/// - `message` is absent (Missing), is no name (Wrong), or is that of no message type (Unknown); then `name` is that of a
///   filter of the message type before it (Twice, at `name`);
/// - `segment` is absent (Missing), is no name of a segment type (Wrong), is that of none (Unknown), or is that of one
///   that the message type has not (Wrong);
/// - `field` is absent (Missing), is no name (Wrong), or is that of no field of the segment type (Unknown).
#[tactic(auto, unfolding(crate::specs::Filters::filters_at))]
pub fn filters_at(
    alloc: Global,
    definitions: &Definitions,
    segments: &Names,
    types: &[IdocType],
    messages: &Named<'_, Message>,
    table: &Table,
) -> Result<Items<Filter>, ReadError>
    requires definitions { AreDefinitions definitions.now }
    requires segments { segments.now ≡ type_names definitions.now.types }
    requires messages { messages.now.names.now ≡ message_names messages.now.things.now }
    requires few { length messages.now.things.now ≤ MOST_MESSAGES }
    ensures given { Gives (λ filters. filters) result
        (filters_at definitions.now types.now messages.now.things.now (table_view table.now)) }
    ensures kept { IfOk result (AreFilters definitions.now types.now messages.now.things.now) }
    ensures entries { IfOk result (SaysListOrNone
        (SaysFilter definitions.now messages.now.things.now) FILTER.now (table_view table.now)) }
{
    let values = list_or_none_at(alloc, MOST_FILTERS, FILTER, table)?;
    filters_of(alloc, definitions, segments, types, messages, values)
}

fn filters_of(
    alloc: Global,
    definitions: &Definitions,
    segments: &Names,
    types: &[IdocType],
    messages: &Named<'_, Message>,
    values: &[Value],
) -> Result<Items<Filter>, ReadError>
    requires definitions { AreDefinitions definitions.now }
    requires segments { segments.now ≡ type_names definitions.now.types }
    requires messages { messages.now.names.now ≡ message_names messages.now.things.now }
    requires few { length messages.now.things.now ≤ MOST_MESSAGES }
    ensures { Gives (λ filters. filters) result
        (filters_of definitions.now types.now messages.now.things.now (items_view values.now)) }
{
    let mut filters = Items::new(alloc);
    for (place, value) in values.iter().enumerate() {
        match filter_of(
            alloc,
            definitions,
            segments,
            types,
            messages,
            filters.as_slice(),
            value,
        ) {
            Err(error) => return Err(within(alloc, FILTER, place, error)),
            Ok(filter) => filters.push(filter)?,
        }
    }
    Ok(filters)
}

/// One more filter behind some.
#[tactic(auto, unfolding(crate::specs::Filters::filter_of))]
fn filter_of(
    alloc: Global,
    definitions: &Definitions,
    segments: &Names,
    types: &[IdocType],
    messages: &Named<'_, Message>,
    filters: &[Filter],
    value: &Value,
) -> Result<Filter, ReadError>
    requires definitions { AreDefinitions definitions.now }
    requires segments { segments.now ≡ type_names definitions.now.types }
    requires messages { messages.now.names.now ≡ message_names messages.now.things.now }
    requires few { length messages.now.things.now ≤ MOST_MESSAGES }
    ensures { Gives (λ filter. filter) result
        (filter_of definitions.now types.now messages.now.things.now filters.now (view value.now)) }
{
    let table = entry_of(alloc, value, &FILTER_KEYS)?;
    let (name, (message, basic)) = head_at(alloc, messages, filters, table)?;
    let entries = entries_at(types, basic.idoctype);
    let segment = type_among_at(alloc, definitions, segments, entries, table)?;
    let field = field_at(alloc, FIELD, all_fields(definitions, segment), table)?;
    Ok(Filter {
        name: Items::from_slice(alloc, name.as_bytes())?,
        message: MessageNo(message as u16),
        segment,
        field,
    })
}

/// The name of a filter and its message type with its place, which no filter so far has.
#[tactic(auto, unfolding(crate::specs::Filters::head_at))]
fn head_at<'t, 'm>(
    alloc: Global,
    messages: &Named<'m, Message>,
    filters: &[Filter],
    table: &'t Table,
) -> Result<(&'t str, (usize, &'m Message)), ReadError>
    requires messages { messages.now.names.now ≡ message_names messages.now.things.now }
    requires few { length messages.now.things.now ≤ MOST_MESSAGES }
    ensures given { Gives (λ head. (head.0.now, (head.1.0, head.1.1.now))) result
        (head_at messages.now.things.now filters.now (table_view table.now)) }
    ensures within { IfOk result (λ head. head.1.0 < length messages.now.things.now) }
{
    let name = name_at(alloc, LONGEST_NAME, NAME, table)?;
    let (place, message) = thing_at(alloc, MESSAGE, messages, table)?;
    if is_there(filters, MessageNo(place as u16), name.as_bytes()) {
        return Err(ReadError::Found(at(alloc, Cause::Twice, NAME)?));
    }
    Ok((name, (place, message)))
}

/// Whether one of some filters is that of a message type with a name.
fn is_there(filters: &[Filter], message: MessageNo, name: &[u8]) -> bool
    ensures { result ≡ list_any (is_filter message name.now) filters.now }
{
    filters.iter().any(|filter| message == filter.message && name == filter.name.as_slice())
}

/// The segment type at its key, which stands among these entries.
#[tactic(auto, unfolding(crate::specs::Filters::type_among_at))]
fn type_among_at(
    alloc: Global,
    definitions: &Definitions,
    segments: &Names,
    entries: &[TypePlace],
    table: &Table,
) -> Result<TypeNo, ReadError>
    requires definitions { AreDefinitions definitions.now }
    requires segments { segments.now ≡ type_names definitions.now.types }
    ensures given { Gives (λ segment. segment) result
        (type_among_at definitions.now entries.now (table_view table.now)) }
    ensures known { IfOk result (λ segment. segment < length definitions.now.types) }
{
    // there are at most 1,000 segment types
    let segment = TypeNo(segment_type_at(alloc, SEGMENT, segments, table)? as u16);
    if !has_entry(entries, segment) {
        return Err(ReadError::Found(at(alloc, Cause::Wrong, SEGMENT)?));
    }
    Ok(segment)
}

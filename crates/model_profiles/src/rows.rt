//! The section of the rows.

ghost use Rattle.std.specs.Prelude.{◌≡◌, ◌<◌, ◌≤◌, ◌∷◌, ◌++◌, [], IfOk, IfSome, length, position};
ghost use Rattle.toml.specs.View.{view, table_view, items_view};
ghost use Rattle.segment_defs.specs.Definitions.{AreDefinitions};
ghost use Rattle.dist_model.specs.declared.limits.TheConstants.{MOST_FILTERS, MOST_MESSAGES, MOST_SYSTEMS};
ghost use Rattle.dist_model.specs.Filter.{is_filter};
ghost use Rattle.dist_model.specs.Way.{row_way};
ghost use Rattle.model_keys.specs.Finding.{Gives};
ghost use Rattle.model_profiles.specs.Rows.{choice_of, choices_of, filter_named, filter_width, group_of, groups_at, groups_of, row_of, rows_at, rows_of, values_of};

use crate::keys::{GROUP, ROW, ROW_KEYS};
use crate::row_basis::RowBasis;
use crate::values::{field_length, filter_value_of};
use crate::ways::new_way_at;
use ale_base::Items;
use dist_model::{
    Choice, FieldPlace, Filter, Group, MOST_GROUPS, MOST_ROWS, MOST_VALUES, MessageNo, Names, Row,
    Triples,
};
use model_keys::{ReadError, entry_of, list_of, list_or_none_at, table_of, unknown, within};
use segment_defs::Definitions;
use std::alloc::Global;
use toml::{Table, Value};

/// The rows of the section `row`, none where it is absent: Wrong where it is no list, Limit where there are more than a
/// model may have, and else the first finding of its entries in order, whose path begins with `row[k]`. In an entry
/// unknown keys come first; then `sender` and `receiver`, two systems that differ (Wrong at `receiver` where they do not),
/// and `message`: Missing, Wrong, Unknown where the name is that of none; then Twice, at the entry, where a row before it
/// has the same three; then `group`, a list of tables. The keys of such a table are walked in byte order: Unknown where
/// one is the name of no filter of the message type, and else its list of values, each a text that fits the field. The
/// rule is this project's own.
#[tactic(auto, unfolding(crate::specs::Rows::rows_at))]
pub fn rows_at(
    alloc: Global,
    systems: &Names,
    definitions: &Definitions,
    messages: &Names,
    filters: &[Filter],
    table: &Table,
) -> Result<Items<Row>, ReadError>
    requires systems { length systems.now ≤ MOST_SYSTEMS }
    requires definitions { AreDefinitions definitions.now }
    requires messages { length messages.now ≤ MOST_MESSAGES }
    requires filters { length filters.now ≤ MOST_FILTERS }
    ensures { Gives (λ rows. rows) result
        (rows_at systems.now definitions.now messages.now filters.now (table_view table.now)) }
{
    let values = list_or_none_at(alloc, MOST_ROWS, ROW, table)?;
    let basis = RowBasis {
        systems,
        definitions,
        messages,
        filters,
    };
    rows_of(alloc, &basis, values)
}

fn rows_of(alloc: Global, on: &RowBasis<'_>, values: &[Value]) -> Result<Items<Row>, ReadError>
    ensures { Gives (λ rows. rows) result
        (rows_of on.now.systems on.now.definitions on.now.messages on.now.filters (items_view values.now)) }
{
    let mut rows = Items::new(alloc);
    let mut ways = Triples::new(alloc);
    for (place, value) in values.iter().enumerate() {
        match row_of(alloc, on, &mut ways, value) {
            Err(error) => return Err(within(alloc, ROW, place, error)),
            Ok(row) => rows.push(row)?,
        }
    }
    Ok(rows)
}

/// One more row. Its way is in the table of those from then on.
#[tactic(auto, unfolding(crate::specs::Rows::row_of))]
fn row_of(
    alloc: Global,
    on: &RowBasis<'_>,
    ways: &mut Triples,
    value: &Value,
) -> Result<Row, ReadError>
    ensures given { Gives (λ row. row) result
        (row_of on.now.systems on.now.definitions on.now.messages on.now.filters ways.old (view value.now)) }
    ensures added { IfOk result (λ row. ways.new ≡ ways.old ++ row_way row ∷ []) }
{
    let table = entry_of(alloc, value, &ROW_KEYS)?;
    let (sender, receiver, message) = new_way_at(alloc, on.systems, on.messages, ways, table)?;
    let group = groups_at(alloc, on, message, table)?;
    Ok(Row {
        sender,
        receiver,
        message,
        group,
    })
}

/// The groups of a row of a message type.
#[tactic(auto, unfolding(crate::specs::Rows::groups_at))]
fn groups_at(
    alloc: Global,
    on: &RowBasis<'_>,
    message: MessageNo,
    table: &Table,
) -> Result<Items<Group>, ReadError>
    ensures { Gives (λ groups. groups) result
        (groups_at on.now.definitions on.now.filters message (table_view table.now)) }
{
    let values = list_or_none_at(alloc, MOST_GROUPS, GROUP, table)?;
    groups_of(alloc, on, message, values)
}

fn groups_of(
    alloc: Global,
    on: &RowBasis<'_>,
    message: MessageNo,
    values: &[Value],
) -> Result<Items<Group>, ReadError>
    ensures { Gives (λ groups. groups) result
        (groups_of on.now.definitions on.now.filters message (items_view values.now)) }
{
    let mut groups = Items::new(alloc);
    for (place, value) in values.iter().enumerate() {
        match group_of(alloc, on, message, value) {
            Err(error) => return Err(within(alloc, GROUP, place, error)),
            Ok(group) => groups.push(group)?,
        }
    }
    Ok(groups)
}

#[tactic(auto, unfolding(crate::specs::Rows::group_of))]
fn group_of(
    alloc: Global,
    on: &RowBasis<'_>,
    message: MessageNo,
    value: &Value,
) -> Result<Group, ReadError>
    ensures { Gives (λ group. group) result (group_of on.now.definitions on.now.filters message (view value.now)) }
{
    let table = table_of(alloc, value)?;
    let choices = choices_of(alloc, on, message, table)?;
    Ok(Group { choices })
}

/// The conditions of a group, key by key in byte order.
#[tactic(auto, unfolding(crate::specs::Rows::choices_of))]
fn choices_of(
    alloc: Global,
    on: &RowBasis<'_>,
    message: MessageNo,
    table: &Table,
) -> Result<Items<Choice>, ReadError>
    ensures { Gives (λ choices. choices) result
        (choices_of on.now.definitions on.now.filters message [] (table_view table.now)) }
{
    let mut choices = Items::new(alloc);
    for (key, value) in table.iter() {
        let choice = choice_of(alloc, on, message, key.as_str(), value)?;
        choices.push(choice)?;
    }
    Ok(choices)
}

/// A condition, on the filter of the message type that a key names.
#[tactic(auto, unfolding(crate::specs::Rows::choice_of))]
fn choice_of(
    alloc: Global,
    on: &RowBasis<'_>,
    message: MessageNo,
    key: &str,
    value: &Value,
) -> Result<Choice, ReadError>
    ensures { Gives (λ choice. choice) result
        (choice_of on.now.definitions on.now.filters message key.now (view value.now)) }
{
    let place = filter_named(alloc, on, message, key)?;
    let values = list_of(alloc, MOST_VALUES, key, value)?;
    let width = filter_width(on, place);
    let values = values_of(alloc, width, key, values)?;
    Ok(Choice {
        filter: place,
        values,
    })
}

/// The place of the filter of a message type that a key names: Unknown where there is none.
#[tactic(auto, unfolding(crate::specs::Rows::filter_named))]
fn filter_named(
    alloc: Global,
    on: &RowBasis<'_>,
    message: MessageNo,
    key: &str,
) -> Result<u16, ReadError>
    ensures { Gives (λ place. place) result (filter_named on.now.filters message key.now) }
{
    match filter_place(on.filters, message, key.as_bytes()) {
        // the dot keeps a key apart that is empty or has dots
        None => Err(ReadError::Found(unknown(alloc, ".", key)?)),
        Some(place) => Ok(place as u16),
    }
}

fn filter_place(filters: &[Filter], message: MessageNo, name: &[u8]) -> Option<usize>
    ensures place { result ≡ position (is_filter message name.now) filters.now }
    ensures within { IfSome result (λ place. place < length filters.now) }
{
    filters
        .iter()
        .position(|filter| is_filter(message, name, filter))
}

/// Whether a filter is the one of a message type that has a name.
fn is_filter(message: MessageNo, name: &[u8], filter: &Filter) -> bool
    ensures { result ≡ is_filter message name.now filter.now }
{
    message == filter.message && name == filter.name.as_slice()
}

/// How many bytes the field of the filter at a place has.
fn filter_width(on: &RowBasis<'_>, place: u16) -> usize
    ensures { result ≡ filter_width on.now.definitions on.now.filters place }
{
    match on.filters.get(usize::from(place)) {
        None => 0,
        Some(filter) => field_length(
            on.definitions,
            FieldPlace {
                segment: filter.segment,
                field: filter.field,
            },
        ),
    }
}

/// The values of a condition, on a field of so many bytes.
fn values_of(
    alloc: Global,
    width: usize,
    key: &str,
    values: &[Value],
) -> Result<Items<Items<u8>>, ReadError>
    ensures { Gives (λ texts. texts) result (values_of width key.now (items_view values.now)) }
{
    let mut texts = Items::new(alloc);
    for (place, value) in values.iter().enumerate() {
        match filter_value_of(alloc, width, value) {
            Err(error) => return Err(within(alloc, key, place, error)),
            Ok(text) => texts.push(text)?,
        }
    }
    Ok(texts)
}

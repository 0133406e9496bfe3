//! The section of the reduced message types.

ghost use Rattle.std.specs.Prelude.{◌≡◌, ◌<◌, ◌≤◌, ◌∷◌, ◌++◌, [], IfOk, length};
ghost use Rattle.std.specs.List.{IsDistinct};
ghost use Rattle.toml.specs.View.{view, table_view, items_view};
ghost use Rattle.ale_base.specs.Text.{is_text};
ghost use Rattle.segment_defs.specs.Definitions.{AreDefinitions};
ghost use Rattle.dist_model.specs.declared.limits.TheConstants.{MOST_MESSAGES};
ghost use Rattle.dist_model.specs.Message.{message_names, AreReduced};
ghost use Rattle.dist_model.specs.Model.{type_names, AreIdocTypes};
ghost use Rattle.model_keys.specs.Finding.{Gives};
ghost use Rattle.model_keys.specs.Says.{SaysListOrNone};
ghost use Rattle.model_messages.specs.declared.keys.TheConstants.{REDUCED};
ghost use Rattle.model_messages.specs.Says.{SaysReduced};
ghost use Rattle.model_messages.specs.Reduced.{all_reduced_of, names_with, reduced_at, reduced_of};

use crate::keep::keep_at;
use crate::keys::{MESSAGE, NAME, REDUCED, REDUCED_KEYS};
use crate::things::{Named, thing_at};
use ale_base::{Items, OutOfMemory};
use dist_model::{MOST_REDUCED, Message, MessageNo, Names, Reduced, entries_at};
use model_keys::{ReadError, entry_of, list_or_none_at, new_name_at, within};
use segment_defs::{Definitions, IdocType, LONGEST_NAME};
use std::alloc::Global;
use toml::{Table, Value};

/// The reduced message types over these message types; none where the key is absent. The table has the names of the
/// message types from then on, and behind them those of the reduced ones; after an `Err` it is of no use.
///
/// The first finding is the answer: at the list Wrong where it is none, and Limit where it has more than `MOST_REDUCED`
/// elements; at an element Wrong where it is no table; then, key by key:
///
/// - a key that is not known (Unknown, the first in byte order);
/// - `name` is absent (Missing), is no name (Wrong), or is that of a message type or of a reduced one before it (Twice);
/// - `message` is absent (Missing), is no name (Wrong), or is that of no message type (Unknown);
/// - `keep` is absent (Missing), is no list (Wrong), or has more than `MOST_KEPT` elements (Limit); an element is not the
///   name of a segment type of the message type, a dot, and the name of a field of that segment type (Wrong).
#[tactic(auto, unfolding(crate::specs::Reduced::reduced_at))]
pub fn reduced_at(
    alloc: Global,
    definitions: &Definitions,
    segments: &Names,
    types: &[IdocType],
    messages: &Named<'_, Message>,
    all: &mut Names,
    table: &Table,
) -> Result<Items<Reduced>, ReadError>
    requires definitions { AreDefinitions definitions.now }
    requires segments { segments.now ≡ type_names definitions.now.types }
    requires types { AreIdocTypes definitions.now types.now }
    requires messages { messages.now.names.now ≡ message_names messages.now.things.now }
    requires few { length messages.now.things.now ≤ MOST_MESSAGES }
    requires apart { IsDistinct is_text (message_names messages.now.things.now) }
    requires all { all.old ≡ [] }
    ensures given { Gives (λ reduced. reduced) result
        (reduced_at definitions.now types.now messages.now.things.now (table_view table.now)) }
    ensures kept { IfOk result (AreReduced definitions.now types.now messages.now.things.now) }
    ensures entries { IfOk result (SaysListOrNone
        (SaysReduced definitions.now messages.now.things.now) REDUCED.now (table_view table.now)) }
    ensures named { IfOk result (λ reduced. all.new ≡ names_with messages.now.things.now reduced) }
{
    let values = list_or_none_at(alloc, MOST_REDUCED, REDUCED, table)?;
    add_names(alloc, messages.things, all)?;
    all_reduced_of(alloc, definitions, segments, types, messages, all, values)
}

/// Adds the names of message types, all different, to a table that has none.
fn add_names(alloc: Global, messages: &[Message], names: &mut Names) -> Result<(), OutOfMemory>
    requires apart { IsDistinct is_text (message_names messages.now) }
    requires names { names.old ≡ [] }
    ensures { IfOk result (λ _. names.new ≡ message_names messages.now) }
{
    for message in messages {
        names.add(alloc, message.name.as_slice())?;
    }
    Ok(())
}

fn all_reduced_of(
    alloc: Global,
    definitions: &Definitions,
    segments: &Names,
    types: &[IdocType],
    messages: &Named<'_, Message>,
    names: &mut Names,
    values: &[Value],
) -> Result<Items<Reduced>, ReadError>
    requires definitions { AreDefinitions definitions.now }
    requires segments { segments.now ≡ type_names definitions.now.types }
    requires types { AreIdocTypes definitions.now types.now }
    requires messages { messages.now.names.now ≡ message_names messages.now.things.now }
    requires few { length messages.now.things.now ≤ MOST_MESSAGES }
    requires names { names.old ≡ message_names messages.now.things.now }
    ensures given { Gives (λ reduced. reduced) result
        (all_reduced_of definitions.now types.now messages.now.things.now (items_view values.now)) }
    ensures named { IfOk result (λ reduced. names.new ≡ names_with messages.now.things.now reduced) }
{
    let mut reduced = Items::new(alloc);
    for (place, value) in values.iter().enumerate() {
        match reduced_of(alloc, definitions, segments, types, messages, names, value) {
            Err(error) => return Err(within(alloc, REDUCED, place, error)),
            Ok(one) => reduced.push(one)?,
        }
    }
    Ok(reduced)
}

#[tactic(auto, unfolding(crate::specs::Reduced::reduced_of))]
fn reduced_of(
    alloc: Global,
    definitions: &Definitions,
    segments: &Names,
    types: &[IdocType],
    messages: &Named<'_, Message>,
    names: &mut Names,
    value: &Value,
) -> Result<Reduced, ReadError>
    requires definitions { AreDefinitions definitions.now }
    requires segments { segments.now ≡ type_names definitions.now.types }
    requires types { AreIdocTypes definitions.now types.now }
    requires messages { messages.now.names.now ≡ message_names messages.now.things.now }
    requires few { length messages.now.things.now ≤ MOST_MESSAGES }
    ensures given { Gives (λ one. one) result
        (reduced_of definitions.now types.now messages.now.things.now names.old (view value.now)) }
    ensures named { IfOk result (λ one. names.new ≡ names.old ++ one.name ∷ []) }
{
    let table = entry_of(alloc, value, &REDUCED_KEYS)?;
    let name = new_name_at(alloc, LONGEST_NAME, NAME, names, table)?;
    let (message, basic) = thing_at(alloc, MESSAGE, messages, table)?;
    let entries = entries_at(types, basic.idoctype);
    let keep = keep_at(alloc, definitions, segments, entries, table)?;
    Ok(Reduced {
        name,
        message: MessageNo(message as u16),
        keep,
    })
}

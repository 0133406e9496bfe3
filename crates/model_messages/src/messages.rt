//! The section of the message types.

ghost use Rattle.std.specs.Prelude.{ℕ, ◌≡◌, ◌<◌, ◌≤◌, List, ◌∷◌, ◌++◌, [], IfOk, length};
ghost use Rattle.toml.specs.View.{view, table_view, items_view};
ghost use Rattle.segment_defs.specs.Definitions.{AreDefinitions};
ghost use Rattle.dist_model.specs.declared.limits.TheConstants.{MOST_KINDS};
ghost use Rattle.dist_model.specs.Kind.{kind_names, AreKinds};
ghost use Rattle.dist_model.specs.Message.{message_names, AreMessages};
ghost use Rattle.dist_model.specs.Model.{idoc_type_names, AreIdocTypes};
ghost use Rattle.model_keys.specs.Finding.{Gives};
ghost use Rattle.model_keys.specs.Says.{SaysListOrNone};
ghost use Rattle.model_messages.specs.declared.keys.TheConstants.{MESSAGE};
ghost use Rattle.model_messages.specs.Says.{SaysMessage};
ghost use Rattle.model_messages.specs.Messages.{kind_at, message_named, message_of, messages_at, messages_of, named, posting_at, posting_named, posting_of};

use crate::keys::{IDOCTYPE, INSERT, KIND, MESSAGE, MESSAGE_KEYS, NAME, POSTING, UPSERT};
use crate::own_fields::{pointers_at, required_at};
use crate::roots::has_root;
use crate::things::{Named, thing_at};
use ale_base::Items;
use dist_model::{Kind, MOST_MESSAGES, Message, Names, PostingMode};
use model_keys::{Cause, ReadError, at, entry_of, get, list_or_none_at, new_name_at, within};
use segment_defs::{Definitions, IdocType, LONGEST_NAME, TypePlace};
use std::alloc::Global;
use toml::{Table, Value};

/// The message types over these IDoc types and kinds; none where the key is absent. Their names are in the table from
/// then on; after an `Err` it is of no use.
///
/// The first finding is the answer: at the list Wrong where it is none, and Limit where it has more than `MOST_MESSAGES`
/// elements; at an element Wrong where it is no table; then, key by key:
///
/// - a key that is not known (Unknown, the first in byte order);
/// - `name` is absent (Missing), is no name (Wrong), or is that of a message type before it (Twice);
/// - `idoctype` is absent (Missing), is no name (Wrong), or is that of none (Unknown);
/// - `kind` is absent (Missing), is no name (Wrong), is that of none (Unknown), or is that of a kind that has not the
///   segment type of the root (Wrong);
/// - `posting` is neither `upsert` nor `insert` (Wrong);
/// - `required` is no list, or an element is no field of the kind's segment type or is its key (Wrong);
/// - `pointers` likewise; it is Wrong, too, wherever it stands though the IDoc type has another mandatory entry at the
///   root level or just below the root.
#[tactic(auto, unfolding(crate::specs::Messages::messages_at))]
pub fn messages_at(
    alloc: Global,
    definitions: &Definitions,
    types: &Named<'_, IdocType>,
    kinds: &Named<'_, Kind>,
    messages: &mut Names,
    table: &Table,
) -> Result<Items<Message>, ReadError>
    requires definitions { AreDefinitions definitions.now }
    requires types { types.now.names.now ≡ idoc_type_names types.now.things.now }
    requires are_types { AreIdocTypes definitions.now types.now.things.now }
    requires kinds { kinds.now.names.now ≡ kind_names kinds.now.things.now }
    requires are_kinds { AreKinds definitions.now kinds.now.things.now }
    requires messages { messages.old ≡ [] }
    ensures given { Gives (λ messages. messages) result
        (messages_at definitions.now types.now.things.now kinds.now.things.now (table_view table.now)) }
    ensures kept { IfOk result (AreMessages definitions.now types.now.things.now kinds.now.things.now) }
    ensures entries { IfOk result (SaysListOrNone
        (SaysMessage definitions.now types.now.things.now kinds.now.things.now) MESSAGE.now (table_view table.now)) }
    ensures named { IfOk result (λ all. messages.new ≡ message_names all) }
{
    let values = list_or_none_at(alloc, MOST_MESSAGES, MESSAGE, table)?;
    messages_of(alloc, definitions, types, kinds, messages, values)
}

fn messages_of(
    alloc: Global,
    definitions: &Definitions,
    types: &Named<'_, IdocType>,
    kinds: &Named<'_, Kind>,
    names: &mut Names,
    values: &[Value],
) -> Result<Items<Message>, ReadError>
    requires definitions { AreDefinitions definitions.now }
    requires types { types.now.names.now ≡ idoc_type_names types.now.things.now }
    requires are_types { AreIdocTypes definitions.now types.now.things.now }
    requires kinds { kinds.now.names.now ≡ kind_names kinds.now.things.now }
    requires are_kinds { AreKinds definitions.now kinds.now.things.now }
    requires names { names.old ≡ [] }
    ensures given { Gives (λ messages. messages) result
        (messages_of definitions.now types.now.things.now kinds.now.things.now (items_view values.now)) }
    ensures named { IfOk result (λ messages. names.new ≡ message_names messages) }
{
    let mut messages = Items::new(alloc);
    for (place, value) in values.iter().enumerate() {
        match message_of(alloc, definitions, types, kinds, names, value) {
            Err(error) => return Err(within(alloc, MESSAGE, place, error)),
            Ok(message) => messages.push(message)?,
        }
    }
    Ok(messages)
}

#[tactic(auto, unfolding(crate::specs::Messages::message_of))]
fn message_of(
    alloc: Global,
    definitions: &Definitions,
    types: &Named<'_, IdocType>,
    kinds: &Named<'_, Kind>,
    names: &mut Names,
    value: &Value,
) -> Result<Message, ReadError>
    requires definitions { AreDefinitions definitions.now }
    requires types { types.now.names.now ≡ idoc_type_names types.now.things.now }
    requires are_types { AreIdocTypes definitions.now types.now.things.now }
    requires kinds { kinds.now.names.now ≡ kind_names kinds.now.things.now }
    requires are_kinds { AreKinds definitions.now kinds.now.things.now }
    ensures given { Gives (λ message. message) result
        (message_of definitions.now types.now.things.now kinds.now.things.now names.old (view value.now)) }
    ensures named { IfOk result (λ message. names.new ≡ names.old ++ message.name ∷ []) }
{
    let table = entry_of(alloc, value, &MESSAGE_KEYS)?;
    let name = new_name_at(alloc, LONGEST_NAME, NAME, names, table)?;
    match unnamed_at(alloc, definitions, types, kinds, table) {
        Err(error) => Err(error),
        Ok(unnamed) => Ok(named(name, unnamed)),
    }
}

/// A message type but for its name.
#[derive(Drop)]
struct Unnamed {
    idoctype: u16,
    kind: u16,
    posting: PostingMode,
    required: Items<u16>,
    pointers: Items<u16>,
}

/// The message type of this name.
fn named(name: Items<u8>, unnamed: Unnamed) -> Message
    ensures { result ≡ named name unnamed }
{
    Message {
        name,
        idoctype: unnamed.idoctype,
        kind: unnamed.kind,
        posting: unnamed.posting,
        required: unnamed.required,
        pointers: unnamed.pointers,
    }
}

/// What an entry says of a message type, whatever its name is.
#[tactic(auto, unfolding(crate::specs::Messages::message_named))]
fn unnamed_at(
    alloc: Global,
    definitions: &Definitions,
    types: &Named<'_, IdocType>,
    kinds: &Named<'_, Kind>,
    table: &Table,
) -> Result<Unnamed, ReadError>
    requires definitions { AreDefinitions definitions.now }
    requires types { types.now.names.now ≡ idoc_type_names types.now.things.now }
    requires are_types { AreIdocTypes definitions.now types.now.things.now }
    requires kinds { kinds.now.names.now ≡ kind_names kinds.now.things.now }
    requires are_kinds { AreKinds definitions.now kinds.now.things.now }
    ensures { (name : List ℕ) → Gives (named name) result
        (message_named definitions.now types.now.things.now kinds.now.things.now name (table_view table.now)) }
{
    let (idoctype, of_type) = thing_at(alloc, IDOCTYPE, types, table)?;
    let entries = of_type.segments.as_slice();
    let (kind, of_kind) = kind_at(alloc, definitions, entries, kinds, table)?;
    let posting = posting_at(alloc, table)?;
    let required = required_at(alloc, definitions, of_kind, table)?;
    let pointers = pointers_at(alloc, definitions, entries, of_kind, table)?;
    Ok(Unnamed {
        idoctype: idoctype as u16,
        kind: kind as u16,
        posting,
        required,
        pointers,
    })
}

/// The kind of the objects, whose segment type is that of the root, and its place.
#[tactic(auto, unfolding(crate::specs::Messages::kind_at))]
fn kind_at<'k>(
    alloc: Global,
    definitions: &Definitions,
    entries: &[TypePlace],
    kinds: &Named<'k, Kind>,
    table: &Table,
) -> Result<(usize, &'k Kind), ReadError>
    requires kinds { kinds.now.names.now ≡ kind_names kinds.now.things.now }
    requires are_kinds { AreKinds definitions.now kinds.now.things.now }
    ensures given { Gives (λ kind. (kind.0, kind.1.now)) result
        (kind_at entries.now kinds.now.things.now (table_view table.now)) }
    ensures few { IfOk result (λ kind. kind.0 < MOST_KINDS) }
    ensures known { IfOk result (λ kind. kind.1.now.segment < length definitions.now.types) }
{
    let (place, kind) = thing_at(alloc, KIND, kinds, table)?;
    if !has_root(entries, kind.segment) {
        return Err(ReadError::Found(at(alloc, Cause::Wrong, KIND)?));
    }
    Ok((place, kind))
}

/// What a posting does, by its word.
fn posting_named(text: &str) -> Option<PostingMode>
    ensures { result ≡ posting_named text.now }
{
    if text == UPSERT {
        Some(PostingMode::Upsert)
    } else if text == INSERT {
        Some(PostingMode::Insert)
    } else {
        None
    }
}

#[tactic(auto, unfolding(crate::specs::Messages::posting_of))]
fn posting_of(alloc: Global, value: &Value) -> Result<PostingMode, ReadError>
    ensures { Gives (λ posting. posting) result (posting_of (view value.now)) }
{
    match value {
        Value::String(text) => match posting_named(text.as_str()) {
            Some(posting) => Ok(posting),
            None => Err(ReadError::Found(at(alloc, Cause::Wrong, POSTING)?)),
        },
        _ => Err(ReadError::Found(at(alloc, Cause::Wrong, POSTING)?)),
    }
}

#[tactic(auto, unfolding(crate::specs::Messages::posting_at))]
fn posting_at(alloc: Global, table: &Table) -> Result<PostingMode, ReadError>
    ensures { Gives (λ posting. posting) result (posting_at (table_view table.now)) }
{
    match get(table, POSTING) {
        None => Ok(PostingMode::Upsert),
        Some(value) => posting_of(alloc, value),
    }
}

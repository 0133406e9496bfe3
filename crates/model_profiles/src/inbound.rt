//! The section of the profiles of what is received.

ghost use Rattle.std.specs.Prelude.{◌≡◌, ◌<◌, ◌≤◌, ◌∷◌, ◌++◌, [], IfOk, length};
ghost use Rattle.toml.specs.View.{view, table_view, items_view};
ghost use Rattle.dist_model.specs.declared.limits.TheConstants.{MOST_SYSTEMS};
ghost use Rattle.dist_model.specs.Index.{inbound_triple, name_place};
ghost use Rattle.model_keys.specs.Finding.{Gives};
ghost use Rattle.model_profiles.specs.Inbound.{inbound_at, inbound_of, inbounds_of, mode_at, mode_in, mode_of, named_at, new_ends_at};

use crate::keys::{BACKGROUND, IMMEDIATE, INBOUND, INBOUND_KEYS, MESSAGE, MODE, RECEIVER, SENDER};
use crate::ways::{new_triple, other_system_at, system_at};
use ale_base::{Items, SystemNo};
use dist_model::{Inbound, InboundMode, MOST_INBOUND, Names, Triples};
use model_keys::{Cause, ReadError, at, entry_of, get, list_or_none_at, name_at, within};
use segment_defs::LONGEST_NAME;
use std::alloc::Global;
use toml::{Table, Value};

/// The profiles of the section `inbound`, none where it is absent: Wrong where it is no list, Limit where there are more
/// than a model may have, and else the first finding of its entries in order, whose path begins with `inbound[k]`. In an
/// entry unknown keys come first; then `receiver` and `sender`, two systems that differ (Wrong at `sender` where they do
/// not), and `message`, the name of a message type or of a reduced one: Missing, Wrong, Unknown where the name is that of
/// none; then Twice, at the entry, where a profile before it has the same three; then `mode`. The rule is this project's
/// own.
#[tactic(auto, unfolding(crate::specs::Inbound::inbound_at))]
pub fn inbound_at(
    alloc: Global,
    systems: &Names,
    names: &Names,
    table: &Table,
) -> Result<Items<Inbound>, ReadError>
    requires { length systems.now ≤ MOST_SYSTEMS }
    ensures { Gives (λ profiles. profiles) result (inbound_at systems.now names.now (table_view table.now)) }
{
    let values = list_or_none_at(alloc, MOST_INBOUND, INBOUND, table)?;
    inbounds_of(alloc, systems, names, values)
}

fn inbounds_of(
    alloc: Global,
    systems: &Names,
    names: &Names,
    values: &[Value],
) -> Result<Items<Inbound>, ReadError>
    requires { length systems.now ≤ MOST_SYSTEMS }
    ensures { Gives (λ profiles. profiles) result (inbounds_of systems.now names.now (items_view values.now)) }
{
    let mut profiles = Items::new(alloc);
    let mut others = Triples::new(alloc);
    for (place, value) in values.iter().enumerate() {
        match inbound_of(alloc, systems, names, &mut others, value) {
            Err(error) => return Err(within(alloc, INBOUND, place, error)),
            Ok(profile) => profiles.push(profile)?,
        }
    }
    Ok(profiles)
}

/// One more profile. What tells it from others is in their table from then on.
#[tactic(auto, unfolding(crate::specs::Inbound::inbound_of))]
fn inbound_of(
    alloc: Global,
    systems: &Names,
    names: &Names,
    others: &mut Triples,
    value: &Value,
) -> Result<Inbound, ReadError>
    requires { length systems.now ≤ MOST_SYSTEMS }
    ensures given { Gives (λ profile. profile) result (inbound_of systems.now names.now others.old (view value.now)) }
    ensures added { IfOk result (λ profile. others.new ≡ others.old ++ inbound_triple names.now profile ∷ []) }
{
    let table = entry_of(alloc, value, &INBOUND_KEYS)?;
    let (receiver, sender, message) = new_ends_at(alloc, systems, names, others, table)?;
    let mode = mode_at(alloc, table)?;
    Ok(Inbound {
        receiver,
        sender,
        message,
        mode,
    })
}

/// Receiver, sender and name. They are new among some: Twice, at the entry, where they are not. They are one of them from
/// then on.
#[tactic(auto, unfolding(crate::specs::Inbound::new_ends_at))]
fn new_ends_at(
    alloc: Global,
    systems: &Names,
    names: &Names,
    others: &mut Triples,
    table: &Table,
) -> Result<(SystemNo, SystemNo, Items<u8>), ReadError>
    requires { length systems.now ≤ MOST_SYSTEMS }
    ensures given { Gives (λ ends. ends) result
        (new_ends_at systems.now names.now others.old (table_view table.now)) }
    ensures added { IfOk result (λ ends. others.new ≡ others.old ++ (ends.0, ends.1, name_place names.now ends.2) ∷ []) }
{
    let receiver = system_at(alloc, RECEIVER, systems, table)?;
    let sender = other_system_at(alloc, SENDER, receiver, systems, table)?;
    let (name, place) = named_at(alloc, names, table)?;
    new_triple(alloc, others, numbers_of(receiver, sender, place))?;
    Ok((receiver, sender, Items::from_slice(alloc, name.as_bytes())?))
}

/// The numbers of two systems, and a place.
fn numbers_of(receiver: SystemNo, sender: SystemNo, place: usize) -> (usize, usize, usize)
    ensures { result ≡ (receiver, sender, place) }
{
    (
        usize::from(receiver.get()),
        usize::from(sender.get()),
        place,
    )
}

/// The name of a message type or of a reduced one, and its place among those names: Missing, Wrong, Unknown.
#[tactic(auto, unfolding(crate::specs::Inbound::named_at))]
fn named_at<'t>(
    alloc: Global,
    names: &Names,
    table: &'t Table,
) -> Result<(&'t str, usize), ReadError>
    ensures given { Gives (λ named. (named.0.now, named.1)) result (named_at names.now (table_view table.now)) }
    ensures place { IfOk result (λ named. named.1 ≡ name_place names.now named.0.now) }
{
    let name = name_at(alloc, LONGEST_NAME, MESSAGE, table)?;
    match names.place(name.as_bytes()) {
        None => Err(ReadError::Found(at(alloc, Cause::Unknown, MESSAGE)?)),
        Some(place) => Ok((name, place)),
    }
}

/// The mode of a word.
fn mode_in(text: &str) -> Option<InboundMode>
    ensures { result ≡ mode_in text.now }
{
    if text == IMMEDIATE {
        Some(InboundMode::Immediate)
    } else if text == BACKGROUND {
        Some(InboundMode::Background)
    } else {
        None
    }
}

#[tactic(auto, unfolding(crate::specs::Inbound::mode_of))]
fn mode_of(alloc: Global, value: &Value) -> Result<InboundMode, ReadError>
    ensures { Gives (λ mode. mode) result (mode_of (view value.now)) }
{
    match value {
        Value::String(text) => match mode_in(text.as_str()) {
            Some(mode) => Ok(mode),
            None => Err(ReadError::Found(at(alloc, Cause::Wrong, MODE)?)),
        },
        _ => Err(ReadError::Found(at(alloc, Cause::Wrong, MODE)?)),
    }
}

#[tactic(auto, unfolding(crate::specs::Inbound::mode_at))]
fn mode_at(alloc: Global, table: &Table) -> Result<InboundMode, ReadError>
    ensures { Gives (λ mode. mode) result (mode_at (table_view table.now)) }
{
    match get(table, MODE) {
        None => Ok(InboundMode::Immediate),
        Some(value) => mode_of(alloc, value),
    }
}

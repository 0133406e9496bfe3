//! The three keys of a way: from which system to which a message type goes.

ghost use Rattle.std.specs.Prelude.{◌≡◌, ◌+◌, ◌<◌, ◌≤◌, ◌∷◌, ◌++◌, [], IfOk, length};
ghost use Rattle.toml.specs.View.{table_view};
ghost use Rattle.dist_model.specs.declared.limits.TheConstants.{MOST_MESSAGES, MOST_SYSTEMS};
ghost use Rattle.model_keys.specs.Finding.{Gives};
ghost use Rattle.model_profiles.specs.Ways.{new_triple, new_way_at, other_system_at, system_at, way_at};

use crate::keys::{MESSAGE, RECEIVER, SENDER};
use ale_base::SystemNo;
use dist_model::{LONGEST_SYSTEM, MessageNo, Names, Triples};
use model_keys::{Cause, ReadError, at, reference_at};
use segment_defs::LONGEST_NAME;
use std::alloc::Global;
use toml::Table;

/// The number of the system at a place from 0.
fn number_at(place: usize) -> SystemNo
    requires { place < MOST_SYSTEMS }
    ensures { result ≡ place + 1 }
{
    SystemNo::of(place as u8 + 1).unwrap()
}

/// The system whose name stands at a key: Missing, Wrong, Unknown where none has the name.
#[tactic(auto, unfolding(crate::specs::Ways::system_at))]
pub(crate) fn system_at(
    alloc: Global,
    key: &str,
    systems: &Names,
    table: &Table,
) -> Result<SystemNo, ReadError>
    requires { length systems.now ≤ MOST_SYSTEMS }
    ensures { Gives (λ system. system) result (system_at key.now systems.now (table_view table.now)) }
{
    let place = reference_at(alloc, LONGEST_SYSTEM, key, systems, table)?;
    Ok(number_at(place))
}

/// The system whose name stands at a key, which is not this other one: Missing, Wrong also where it is that one, Unknown where none has the
/// name.
#[tactic(auto, unfolding(crate::specs::Ways::other_system_at))]
pub(crate) fn other_system_at(
    alloc: Global,
    key: &str,
    other: SystemNo,
    systems: &Names,
    table: &Table,
) -> Result<SystemNo, ReadError>
    requires { length systems.now ≤ MOST_SYSTEMS }
    ensures { Gives (λ system. system) result
        (other_system_at key.now other systems.now (table_view table.now)) }
{
    let system = system_at(alloc, key, systems, table)?;
    if system == other {
        return Err(ReadError::Found(at(alloc, Cause::Wrong, key)?));
    }
    Ok(system)
}

#[tactic(auto, unfolding(crate::specs::Ways::way_at))]
fn way_at(
    alloc: Global,
    systems: &Names,
    messages: &Names,
    table: &Table,
) -> Result<(SystemNo, SystemNo, MessageNo), ReadError>
    requires systems { length systems.now ≤ MOST_SYSTEMS }
    requires messages { length messages.now ≤ MOST_MESSAGES }
    ensures { Gives (λ way. way) result (way_at systems.now messages.now (table_view table.now)) }
{
    let sender = system_at(alloc, SENDER, systems, table)?;
    let receiver = other_system_at(alloc, RECEIVER, sender, systems, table)?;
    let message = reference_at(alloc, LONGEST_NAME, MESSAGE, messages, table)?;
    Ok((sender, receiver, MessageNo(message as u16)))
}

/// The numbers of a way.
fn numbers_of(sender: SystemNo, receiver: SystemNo, message: MessageNo) -> (usize, usize, usize)
    ensures { result ≡ (sender, receiver, message) }
{
    (
        usize::from(sender.get()),
        usize::from(receiver.get()),
        usize::from(message.0),
    )
}

/// Adds three numbers to some: Twice, at the entry, where these are among them.
#[tactic(auto, unfolding(crate::specs::Ways::new_triple))]
pub(crate) fn new_triple(
    alloc: Global,
    triples: &mut Triples,
    triple: (usize, usize, usize),
) -> Result<(), ReadError>
    ensures given { Gives (λ _. triple) result (new_triple triples.old triple) }
    ensures added { IfOk result (λ _. triples.new ≡ triples.old ++ triple ∷ []) }
{
    if !triples.add(triple)? {
        return Err(ReadError::Found(at(alloc, Cause::Twice, "")?));
    }
    Ok(())
}

/// Sender, receiver and message type. They are new among some ways: Twice, at the entry, where they are not. They are one
/// of them from then on.
#[tactic(auto, unfolding(crate::specs::Ways::new_way_at))]
pub(crate) fn new_way_at(
    alloc: Global,
    systems: &Names,
    messages: &Names,
    ways: &mut Triples,
    table: &Table,
) -> Result<(SystemNo, SystemNo, MessageNo), ReadError>
    requires systems { length systems.now ≤ MOST_SYSTEMS }
    requires messages { length messages.now ≤ MOST_MESSAGES }
    ensures given { Gives (λ way. way) result
        (new_way_at systems.now messages.now ways.old (table_view table.now)) }
    ensures added { IfOk result (λ way. ways.new ≡ ways.old ++ way ∷ []) }
{
    let (sender, receiver, message) = way_at(alloc, systems, messages, table)?;
    new_triple(alloc, ways, numbers_of(sender, receiver, message))?;
    Ok((sender, receiver, message))
}

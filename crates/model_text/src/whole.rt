//! What profiles leave of documents.

ghost use Rattle.std.specs.Prelude.{◌≡◌, ℕ, IfOk, Some, nat_eq, position, true};
ghost use Rattle.std.specs.List.{list_any};
ghost use Rattle.segment_defs.specs.Definitions.{AreDefinitions};
ghost use Rattle.dist_model.specs.Outbound.{removes};
ghost use Rattle.model_keys.specs.Finding.{Fails, Gives};
ghost use Rattle.model_text.specs.Whole.{all_whole, drops_none, no_fault, removes_none, whole};

use crate::keys::{OUTBOUND, RELEASE, REMOVE};
use crate::leaving::{By, has_type, missed_of, types_in};
use ale_base::Items;
use dist_model::{Message, Numbers, Outbound, message_entries};
use model_keys::{Cause, Finding, ReadError, at, within};
use segment_defs::{Definitions, IdocType, TypeNo, TypePlace};
use std::alloc::Global;

/// Whether each profile leaves all that is mandatory in documents of its message type: MandatoryRemoved at the first
/// removal of a mandatory segment type whose parent is not removed, and then NoVersion, at the release, where a mandatory
/// segment type has no definition by the release of the profile though its parent is sent.
pub(crate) fn all_whole(
    alloc: Global,
    definitions: &Definitions,
    types: &[IdocType],
    messages: &[Message],
    profiles: &[Outbound],
) -> Result<(), ReadError>
    requires { AreDefinitions definitions.now }
    ensures { Gives (λ _. true) result
        (all_whole definitions.now types.now messages.now profiles.now) }
{
    for (place, profile) in profiles.iter().enumerate() {
        let entries = message_entries(types, messages, profile.message);
        match whole(alloc, definitions, entries, profile) {
            Err(error) => return Err(within(alloc, OUTBOUND, place, error)),
            Ok(()) => {}
        }
    }
    Ok(())
}

#[tactic(auto, unfolding(crate::specs::Whole::whole))]
fn whole(
    alloc: Global,
    definitions: &Definitions,
    entries: &[TypePlace],
    profile: &Outbound,
) -> Result<(), ReadError>
    requires { AreDefinitions definitions.now }
    ensures { Gives (λ _. true) result (whole definitions.now entries.now profile.now) }
{
    let removed = types_in(alloc, profile.remove.as_slice())?;
    removes_none(alloc, definitions, entries, profile, &removed)?;
    drops_none(alloc, definitions, entries, profile, &removed)
}

/// Whether a profile removes no segment type that would be missed. The table has those that it removes.
#[tactic(auto, unfolding(crate::specs::Whole::removes_none))]
fn removes_none(
    alloc: Global,
    definitions: &Definitions,
    entries: &[TypePlace],
    profile: &Outbound,
    removed: &Numbers,
) -> Result<(), ReadError>
    requires definitions { AreDefinitions definitions.now }
    requires removed { (segment : ℕ) → list_any (nat_eq segment) removed.now ≡ removes profile.now segment }
    ensures { Gives (λ _. true) result (removes_none entries.now profile.now) }
{
    let missed = missed_of(
        alloc,
        By::Removal,
        By::Removal,
        definitions,
        profile,
        removed,
        entries,
    )?;
    let missed = types_in(alloc, missed.as_slice())?;
    match first_in(&missed, profile.remove.as_slice()) {
        None => Ok(()),
        Some(place) => Err(removal_error(alloc, place)),
    }
}

/// The place of the first segment type that is among some.
fn first_in(types: &Numbers, segments: &[TypeNo]) -> Option<usize>
    ensures { result ≡ position (λ segment. list_any (nat_eq segment) types.now) segments.now }
{
    segments
        .iter()
        .position(|segment| has_type(types, *segment))
}

/// The error of the removal at a place.
fn removal_error(alloc: Global, place: usize) -> ReadError
    ensures { Fails result (no_fault (Some place)) }
{
    let error = ReadError::Found(Finding {
        cause: Cause::MandatoryRemoved,
        path: Items::new(alloc),
    });
    within(alloc, REMOVE, place, error)
}

/// Whether the release of a profile drops no segment type that would be missed. The table has those that it removes.
#[tactic(auto, unfolding(crate::specs::Whole::drops_none))]
fn drops_none(
    alloc: Global,
    definitions: &Definitions,
    entries: &[TypePlace],
    profile: &Outbound,
    removed: &Numbers,
) -> Result<(), ReadError>
    requires definitions { AreDefinitions definitions.now }
    requires removed { (segment : ℕ) → list_any (nat_eq segment) removed.now ≡ removes profile.now segment }
    ensures { Gives (λ _. true) result (drops_none definitions.now entries.now profile.now) }
{
    let missed = missed_of(
        alloc,
        By::Release,
        By::Either,
        definitions,
        profile,
        removed,
        entries,
    )?;
    if missed.len() != 0 {
        return Err(ReadError::Found(at(alloc, Cause::NoVersion, RELEASE)?));
    }
    Ok(())
}

//! How documents are collected, and by which release and reduction they are sent.

ghost use Rattle.std.specs.Prelude.{◌≡◌, ◌<◌, ◌≤◌, ◌+◌, ◌++◌, IfOk, IfSome, length};
ghost use Rattle.toml.specs.View.{view, table_view};
ghost use Rattle.dist_model.specs.declared.limits.TheConstants.{MOST_MESSAGES, MOST_REDUCED, MOST_RELEASES};
ghost use Rattle.dist_model.specs.Message.{message_names, reduced_names};
ghost use Rattle.model_keys.specs.Finding.{Gives};
ghost use Rattle.model_profiles.specs.Basis.{IsBasis};
ghost use Rattle.model_profiles.specs.Outbound.{is_reduction, outmod_at, outmod_of, packet_at, packet_of, reduced_at, reduced_named, reduced_of, release_at, release_of, sending_at};

use crate::basis::Basis;
use crate::keys::{OUTMOD, PACKET, REDUCED, RELEASE};
use dist_model::{LONGEST_RELEASE, MOST_PACKET, Message, MessageNo, Names, Reduced};
use model_keys::{Cause, ReadError, at, get, name_of, number_of};
use segment_defs::LONGEST_NAME;
use std::alloc::Global;
use toml::{Table, Value};

/// The mode, the most documents of a unit, the release, and the reduced message type of a profile of a message type.
#[tactic(auto, unfolding(crate::specs::Outbound::sending_at))]
pub(crate) fn sending_at(
    alloc: Global,
    basis: &Basis<'_>,
    message: MessageNo,
    table: &Table,
) -> Result<(u8, u32, u8, Option<u16>), ReadError>
    requires { IsBasis basis.now }
    ensures { Gives (λ sending. sending) result
        (sending_at basis.now.releases.now basis.now.messages.now basis.now.reduced.now message (table_view table.now)) }
{
    let outmod = outmod_at(alloc, table)?;
    let packet = packet_at(alloc, outmod, table)?;
    let release = release_at(alloc, basis.releases, table)?;
    let reduced = reduced_at(
        alloc,
        basis.messages,
        basis.reduced,
        basis.all_names,
        message,
        table,
    )?;
    Ok((outmod, packet, release, reduced))
}

#[tactic(auto, unfolding(crate::specs::Outbound::outmod_of))]
fn outmod_of(alloc: Global, value: &Value) -> Result<u8, ReadError>
    ensures { Gives (λ outmod. outmod) result (outmod_of (view value.now)) }
{
    let number = number_of(alloc, 2, 4, OUTMOD, value)?;
    if number == 3 {
        return Err(ReadError::Found(at(alloc, Cause::Wrong, OUTMOD)?));
    }
    Ok(number as u8)
}

/// 2 or 4.
#[tactic(auto, unfolding(crate::specs::Outbound::outmod_at))]
fn outmod_at(alloc: Global, table: &Table) -> Result<u8, ReadError>
    ensures { Gives (λ outmod. outmod) result (outmod_at (table_view table.now)) }
{
    match get(table, OUTMOD) {
        None => Ok(2),
        Some(value) => outmod_of(alloc, value),
    }
}

#[tactic(auto, unfolding(crate::specs::Outbound::packet_of))]
fn packet_of(alloc: Global, outmod: u8, value: &Value) -> Result<u32, ReadError>
    ensures { Gives (λ packet. packet) result (packet_of outmod (view value.now)) }
{
    let packet = number_of(alloc, 1, u64::from(MOST_PACKET), PACKET, value)?;
    if outmod != 4 {
        return Err(ReadError::Found(at(alloc, Cause::Wrong, PACKET)?));
    }
    Ok(packet as u32)
}

/// The most documents of a unit, which is given only where documents are collected.
#[tactic(auto, unfolding(crate::specs::Outbound::packet_at))]
fn packet_at(alloc: Global, outmod: u8, table: &Table) -> Result<u32, ReadError>
    ensures { Gives (λ packet. packet) result (packet_at outmod (table_view table.now)) }
{
    match get(table, PACKET) {
        None => Ok(1),
        Some(value) => packet_of(alloc, outmod, value),
    }
}

#[tactic(auto, unfolding(crate::specs::Outbound::release_of))]
fn release_of(alloc: Global, releases: &Names, value: &Value) -> Result<u8, ReadError>
    requires { length releases.now ≤ MOST_RELEASES }
    ensures { Gives (λ release. release) result (release_of releases.now (view value.now)) }
{
    let name = name_of(alloc, LONGEST_RELEASE, RELEASE, value)?;
    match releases.place(name.as_bytes()) {
        None => Err(ReadError::Found(at(alloc, Cause::Unknown, RELEASE)?)),
        Some(place) => Ok(place as u8),
    }
}

/// The place of the release of a profile, that of the last one where the key is absent.
#[tactic(auto, unfolding(crate::specs::Outbound::release_at))]
fn release_at(alloc: Global, releases: &Names, table: &Table) -> Result<u8, ReadError>
    requires some { 1 ≤ length releases.now }
    requires few { length releases.now ≤ MOST_RELEASES }
    ensures { Gives (λ release. release) result (release_at releases.now (table_view table.now)) }
{
    match get(table, RELEASE) {
        None => Ok((releases.len() - 1) as u8),
        Some(value) => release_of(alloc, releases, value),
    }
}

/// The place of the reduced message type that has a name. None exactly where none has it.
fn reduced_named(
    messages: &[Message],
    reduced: &[Reduced],
    names: &Names,
    name: &[u8],
) -> Option<usize>
    requires { names.now ≡ message_names messages.now ++ reduced_names reduced.now }
    ensures place { result ≡ reduced_named messages.now reduced.now name.now }
    ensures within { IfSome result (λ place. place < length names.now) }
{
    match names.place(name) {
        Some(place) if place >= messages.len() => Some(place - messages.len()),
        _ => None,
    }
}

/// Whether the reduced message type at a place is one of a message type.
fn is_reduction(reduced: &[Reduced], message: MessageNo, place: usize) -> bool
    ensures { result ≡ is_reduction reduced.now message place }
{
    match reduced.get(place) {
        None => false,
        Some(one) => message == one.message,
    }
}

#[tactic(auto, unfolding(crate::specs::Outbound::reduced_of))]
fn reduced_of(
    alloc: Global,
    messages: &[Message],
    reduced: &[Reduced],
    names: &Names,
    message: MessageNo,
    value: &Value,
) -> Result<Option<u16>, ReadError>
    requires named { names.now ≡ message_names messages.now ++ reduced_names reduced.now }
    requires few { length names.now ≤ MOST_MESSAGES + MOST_REDUCED }
    ensures { Gives (λ place. place) result (reduced_of messages.now reduced.now message (view value.now)) }
{
    let name = name_of(alloc, LONGEST_NAME, REDUCED, value)?;
    match reduced_named(messages, reduced, names, name.as_bytes()) {
        None => Err(ReadError::Found(at(alloc, Cause::Unknown, REDUCED)?)),
        Some(place) => {
            if !is_reduction(reduced, message, place) {
                return Err(ReadError::Found(at(alloc, Cause::Wrong, REDUCED)?));
            }
            Ok(Some(place as u16))
        }
    }
}

/// The place of the reduced message type of a profile of a message type: Wrong, Unknown.
#[tactic(auto, unfolding(crate::specs::Outbound::reduced_at))]
fn reduced_at(
    alloc: Global,
    messages: &[Message],
    reduced: &[Reduced],
    names: &Names,
    message: MessageNo,
    table: &Table,
) -> Result<Option<u16>, ReadError>
    requires named { names.now ≡ message_names messages.now ++ reduced_names reduced.now }
    requires few { length names.now ≤ MOST_MESSAGES + MOST_REDUCED }
    ensures { Gives (λ place. place) result (reduced_at messages.now reduced.now message (table_view table.now)) }
{
    match get(table, REDUCED) {
        None => Ok(None),
        Some(value) => reduced_of(alloc, messages, reduced, names, message, value),
    }
}

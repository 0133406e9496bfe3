//! The events that the dice choose for a walk.

use crate::events::{
    ClaimEvent, UnitEvent, claim_event, commit, fall, opening, operation, revocation, unit_event,
};
use crate::records::{UnitRecord, model, no_document, record_of, switch};
use ale_base::{Items, Way};
use case_form::Dice;
use std::alloc::Global;
use trfc_protocol::{CoreAnswer, Event};
use unit_core::{AleUnit, Record};

/// Events of a unit, those of its way more often than others.
const UNIT_EVENTS: [UnitEvent; 8] = [
    UnitEvent::Claim,
    UnitEvent::Claim,
    UnitEvent::Arrive,
    UnitEvent::Arrive,
    UnitEvent::Run,
    UnitEvent::Confirm,
    UnitEvent::LoseConfirm,
    UnitEvent::Forgotten,
];

const CLAIM_EVENTS: [ClaimEvent; 9] = [
    ClaimEvent::Finish,
    ClaimEvent::Finish,
    ClaimEvent::Fail,
    ClaimEvent::Reply(CoreAnswer::Done),
    ClaimEvent::Reply(CoreAnswer::Done),
    ClaimEvent::Reply(CoreAnswer::SysFail),
    ClaimEvent::Reply(CoreAnswer::Busy),
    ClaimEvent::LoseRequest,
    ClaimEvent::LoseReply,
];

/// Records of a unit that its sender may be writing as it falls.
const SENT: [UnitRecord; 4] = [
    UnitRecord::Done,
    UnitRecord::Ended,
    UnitRecord::Lost,
    UnitRecord::Refused,
];

/// Records of a unit that its receiver may be writing as it falls.
const RECEIVED: [UnitRecord; 5] = [
    UnitRecord::Accept,
    UnitRecord::Direct,
    UnitRecord::Execute,
    UnitRecord::Fail,
    UnitRecord::Forget,
];

/// An event of a unit, possible or not, or of one of the last claims. None where there is no memory for the copy of the unit:
/// the walk goes on without it.
pub(crate) fn event(
    alloc: Global,
    unit: &AleUnit,
    next_number: u64,
    dice: &mut Dice,
) -> Option<Event> {
    match dice.below(28) {
        0..=8 => Some(unit_event(*dice.pick(UNIT_EVENTS.as_slice())?, unit.tid)),
        9..=16 => {
            let number = next_number.saturating_sub(1 + u64::from(dice.below(3)));
            Some(claim_event(*dice.pick(CLAIM_EVENTS.as_slice())?, number))
        }
        17..=21 => operated(alloc, unit, dice),
        _ => fall_or_open(alloc, unit, dice),
    }
}

/// A Commit, a Retry, a Stop, a Start, a Model, or that all claims go.
fn operated(alloc: Global, unit: &AleUnit, dice: &mut Dice) -> Option<Event> {
    match dice.below(16) {
        0..=6 => Some(commit(unit.sender, no_document(alloc))),
        7 | 8 => retry(unit, dice),
        9 | 10 => switched(unit, true, dice),
        11..=13 => switched(unit, false, dice),
        14 => Some(operation(unit.receiver, model(Items::new(alloc)))),
        _ => Some(revocation()),
    }
}

/// A Retry of a unit, at its sender or at its receiver.
fn retry(unit: &AleUnit, dice: &mut Dice) -> Option<Event> {
    if dice.below(2) == 0 {
        Some(operation(unit.sender, record_made(UnitRecord::RetryOut, unit)?))
    } else {
        Some(operation(unit.receiver, record_made(UnitRecord::RetryIn, unit)?))
    }
}

/// A record of a unit, where there is memory for it.
fn record_made(kind: UnitRecord, unit: &AleUnit) -> Option<Record> {
    match record_of(kind, unit) {
        Ok(record) => Some(record),
        Err(_) => None,
    }
}

/// A Stop or a Start of the first queue of a unit, at its sender or at its receiver.
fn switched(unit: &AleUnit, stops: bool, dice: &mut Dice) -> Option<Event> {
    if dice.below(2) == 0 {
        let next = switch(
            stops,
            Way::Outgoing,
            unit.receiver.get(),
            *unit.outq.get(0)?,
        );
        Some(operation(unit.sender, next))
    } else {
        let next = switch(stops, Way::Incoming, 0, *unit.inq.get(0)?);
        Some(operation(unit.receiver, next))
    }
}

/// A fall or an opening of the sender or of the receiver of a unit. Openings are more often than falls, so that the walk goes
/// on.
fn fall_or_open(alloc: Global, unit: &AleUnit, dice: &mut Dice) -> Option<Event> {
    let is_sender = dice.below(2) == 0;
    let system = if is_sender {
        unit.sender
    } else {
        unit.receiver
    };
    match dice.below(12) {
        0 => Some(fall(system, None)),
        1..=4 => Some(fall(system, Some(written(alloc, unit, is_sender, dice)?))),
        _ => Some(opening(system)),
    }
}

/// A record that a system of a unit may be writing.
fn written(alloc: Global, unit: &AleUnit, is_sender: bool, dice: &mut Dice) -> Option<Record> {
    if !is_sender {
        return record_made(*dice.pick(RECEIVED.as_slice())?, unit);
    }
    if dice.below(5) == 0 {
        return Some(no_document(alloc));
    }
    record_made(*dice.pick(SENT.as_slice())?, unit)
}

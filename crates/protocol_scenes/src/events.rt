//! Events as lines of text.

use crate::fault::Fault;
use crate::records::read_record;
use crate::units::Lists;
use crate::words::Words;
use ale_base::{SystemNo, Tid};
use std::alloc::Global;
use trfc_protocol::{Action, CoreAnswer, Event, ReplyTo};
use unit_core::Record;

/// An event of one unit.
#[derive(Clone, Copy)]
pub(crate) enum UnitEvent {
    Claim,
    Arrive,
    Run,
    Confirm,
    LoseConfirm,
    /// The news that the unit's id is forgotten.
    Forgotten,
}

/// An event of one claim.
#[derive(Clone, Copy)]
pub(crate) enum ClaimEvent {
    Finish,
    Fail,
    Reply(CoreAnswer),
    LoseRequest,
    LoseReply,
}

/// What the name of an event begins.
#[derive(Clone, Copy)]
enum EventWord {
    OfUnit(UnitEvent),
    OfClaim(ClaimEvent),
    Commit,
    Operate,
    Fall,
    Open,
    Revoke,
}

const EVENTS: [(&'static [u8], EventWord); 18] = [
    (b"claim", EventWord::OfUnit(UnitEvent::Claim)),
    (b"arrive", EventWord::OfUnit(UnitEvent::Arrive)),
    (b"run", EventWord::OfUnit(UnitEvent::Run)),
    (b"confirm", EventWord::OfUnit(UnitEvent::Confirm)),
    (
        b"lose confirmation",
        EventWord::OfUnit(UnitEvent::LoseConfirm),
    ),
    (b"reply forgotten", EventWord::OfUnit(UnitEvent::Forgotten)),
    (b"finish", EventWord::OfClaim(ClaimEvent::Finish)),
    (b"fail", EventWord::OfClaim(ClaimEvent::Fail)),
    (
        b"reply done",
        EventWord::OfClaim(ClaimEvent::Reply(CoreAnswer::Done)),
    ),
    (
        b"reply sysfail",
        EventWord::OfClaim(ClaimEvent::Reply(CoreAnswer::SysFail)),
    ),
    (
        b"reply busy",
        EventWord::OfClaim(ClaimEvent::Reply(CoreAnswer::Busy)),
    ),
    (b"lose request", EventWord::OfClaim(ClaimEvent::LoseRequest)),
    (b"lose reply", EventWord::OfClaim(ClaimEvent::LoseReply)),
    (b"commit", EventWord::Commit),
    (b"operate", EventWord::Operate),
    (b"fall", EventWord::Fall),
    (b"open", EventWord::Open),
    (b"revoke", EventWord::Revoke),
];

/// Reads an event.
pub(crate) fn read_event(alloc: Global, lists: &Lists, words: &mut Words) -> Result<Event, Fault> {
    match words.choice(&EVENTS, Fault::BadEvent)? {
        EventWord::OfUnit(kind) => Ok(unit_event(kind, words.tid()?)),
        EventWord::OfClaim(kind) => Ok(claim_event(kind, u64::from(words.number()?))),
        EventWord::Revoke => Ok(revocation()),
        EventWord::Open => Ok(opening(words.system()?)),
        EventWord::Commit => read_commit(alloc, lists, words),
        EventWord::Operate => read_operation(alloc, lists, words),
        EventWord::Fall => read_fall(alloc, lists, words),
    }
}

pub(crate) fn unit_event(kind: UnitEvent, tid: Tid) -> Event {
    match kind {
        UnitEvent::Claim => Event::Claim { tid },
        UnitEvent::Arrive => Event::Arrive { tid },
        UnitEvent::Run => Event::Run { tid },
        UnitEvent::Confirm => Event::Confirm { tid },
        UnitEvent::LoseConfirm => Event::LoseConfirm { tid },
        UnitEvent::Forgotten => reply(ReplyTo::Forgotten(tid)),
    }
}

pub(crate) fn claim_event(kind: ClaimEvent, number: u64) -> Event {
    match kind {
        ClaimEvent::Finish => Event::Finish { number },
        ClaimEvent::Fail => Event::Fail { number },
        ClaimEvent::Reply(answer) => reply(ReplyTo::Claim(number, answer)),
        ClaimEvent::LoseRequest => Event::LoseRequest { number },
        ClaimEvent::LoseReply => Event::LoseReply { number },
    }
}

fn reply(to: ReplyTo) -> Event {
    Event::Reply { to }
}

/// The event that all claims are given up.
pub(crate) fn revocation() -> Event {
    Event::Operator {
        action: Action::Revoke,
    }
}

pub(crate) fn opening(system: SystemNo) -> Event {
    Event::Open { system }
}

fn read_commit(alloc: Global, lists: &Lists, words: &mut Words) -> Result<Event, Fault> {
    let system = words.system()?;
    Ok(commit(system, read_record(alloc, lists, words)?))
}

fn read_operation(alloc: Global, lists: &Lists, words: &mut Words) -> Result<Event, Fault> {
    let system = words.system()?;
    Ok(operation(system, read_record(alloc, lists, words)?))
}

fn read_fall(alloc: Global, lists: &Lists, words: &mut Words) -> Result<Event, Fault> {
    let system = words.system()?;
    if words.is_at_end() {
        return Ok(fall(system, None));
    }
    Ok(fall(system, Some(read_record(alloc, lists, words)?)))
}

pub(crate) fn commit(system: SystemNo, what: Record) -> Event {
    Event::Commit { system, what }
}

/// The event of an operator who appends a record.
pub(crate) fn operation(system: SystemNo, next: Record) -> Event {
    Event::Operator {
        action: Action::Append(system, next),
    }
}

/// The fall of a system, which was writing a record or none.
pub(crate) fn fall(system: SystemNo, kept: Option<Record>) -> Event {
    Event::Fall { system, kept }
}

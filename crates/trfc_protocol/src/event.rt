//! Events, and what they carry.

use ale_base::{SystemNo, Tid};
use unit_core::Record;

/// What may happen. An event that is not possible leaves the world as it is.
#[derive(Drop)]
pub enum Event {
    /// A system commits documents: a Commit or Dispatch is appended.
    Commit {
        system: SystemNo,
        what: Record,
    },
    /// The sender claims a unit, to ship it.
    Claim {
        tid: Tid,
    },
    /// A request with the unit arrives at its receiver. It may be one that arrived before.
    Arrive {
        tid: Tid,
    },
    /// The receiver claims a unit that it took in, to execute it.
    Run {
        tid: Tid,
    },
    /// The work of a claim ends: the unit is executed.
    Finish {
        number: u64,
    },
    /// The work of a claim ends: its system does not offer the unit's function.
    Fail {
        number: u64,
    },
    /// A reply arrives.
    Reply {
        to: ReplyTo,
    },
    /// The request of a claim is lost.
    LoseRequest {
        number: u64,
    },
    /// The reply of a claim is lost.
    LoseReply {
        number: u64,
    },
    /// The confirmation of a unit arrives at its receiver.
    Confirm {
        tid: Tid,
    },
    /// The confirmation of a unit is lost.
    LoseConfirm {
        tid: Tid,
    },
    /// An operator or the application acts.
    Operator {
        action: Action,
    },
    /// A system falls. The record is the one that it was writing, which it may find at its opening; with none it finds
    /// nothing.
    Fall {
        system: SystemNo,
        kept: Option<Record>,
    },
    /// A system that is down is opened, and finds what it may find.
    Open {
        system: SystemNo,
    },
}

/// What a reply answers.
#[derive(Drop)]
pub enum ReplyTo {
    /// The shipment under the claim of this number.
    Claim(u64, CoreAnswer),
    /// The confirmation of this unit: its id is forgotten.
    Forgotten(Tid),
}

/// What the sender learns of a shipment.
#[derive(Clone, Copy, PartialEq, Eq)]
pub enum CoreAnswer {
    /// The receiver has the unit.
    Done,
    /// The unit has no inbound queue, and the receiver does not offer its function.
    SysFail,
    /// A direct run of the unit is under way.
    Busy,
}

/// What an operator or the application does.
#[derive(Drop)]
pub enum Action {
    /// Appends a Stop, Start, Retry, Put, App, Repost or Model.
    Append(SystemNo, Record),
    /// Drops all claims.
    Revoke,
}

//! The lines of listings.

use crate::Status;
use ale_base::{DocNum, FieldValue, Items, QueueName, Tid, Way};
use idoc_record::{Data, Place};
use plain_queues::QueueStatus;

/// A document and its statuses.
#[derive(Drop)]
pub struct DocLine {
    /// Whether it was sent or received.
    pub way: Way,
    /// Its number, among those of its way.
    pub doc: DocNum,
    /// The name of the system to which it was sent, or from which it came.
    pub partner: Items<u8>,
    /// Its message type.
    pub message: Items<u8>,
    /// Its statuses, in the order in which it got them.
    pub statuses: Items<Status>,
}

/// A status of a document, and when it got it.
#[derive(Clone, Copy, PartialEq, Eq)]
pub struct HistoryLine {
    /// The status.
    pub status: Status,
    /// The moment of the record that gave it, in seconds since the beginning of 1970 in UTC; none where the record has none.
    pub moment: Option<u64>,
}

/// A segment of a document.
#[derive(Drop)]
pub struct SegmentLine {
    /// Where it stands in the document.
    pub place: Place,
    /// Its name and data.
    pub line: Data,
}

/// What became of a unit, at one of its two systems.
#[derive(Clone, Copy, PartialEq, Eq)]
pub enum UnitState {
    /// Sent by this system and neither done nor marked.
    Unsent,
    /// Marked since its last retry: its call got no answer.
    Cpicerr,
    /// Marked since its last retry: its function is not offered.
    Sysfail,
    /// Its receiver has it.
    Done,
    /// Its receiver will not be asked for it again.
    Ended,
    /// Received and not executed.
    Accepted,
    /// Executed.
    Executed,
}

/// A unit and its state.
#[derive(Drop)]
pub struct UnitLine {
    /// Whether it was sent or received.
    pub way: Way,
    /// Its transaction id.
    pub tid: Tid,
    /// The name of the system to which it was sent, or from which it came.
    pub partner: Items<u8>,
    /// Its state.
    pub state: UnitState,
    /// Whether its receiver has forgotten its id. No unit that was sent has.
    pub forgotten: bool,
}

/// A queue and its status.
#[derive(Drop)]
pub struct QueueLine {
    /// Whether it is outbound or inbound.
    pub way: Way,
    /// The name of the system to which an outbound queue leads.
    pub partner: Items<u8>,
    /// Its name.
    pub name: QueueName,
    /// How many units are in it.
    pub count: u64,
    /// Its status.
    pub status: QueueStatus,
}

/// An object and its fields.
#[derive(Drop)]
pub struct ObjectLine {
    /// The name of its kind.
    pub kind: Items<u8>,
    /// Its key.
    pub key: Items<u8>,
    /// Its fields that are not blank, by name.
    pub fields: Items<FieldValue>,
}

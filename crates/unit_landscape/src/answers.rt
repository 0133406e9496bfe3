//! What the calls of a landscape answer.

use crate::{InClaim, Receipt};
use thiserror::Error;

/// How a receiver answers the arrival of a unit.
#[derive(Drop)]
pub enum Arrival {
    /// The unit was taken in, to be executed in the order of its queues.
    New(Receipt),
    /// The unit has no inbound queue, and a run of it begins.
    Run(InClaim),
    /// The unit was received before.
    Known(Receipt),
    /// A run of the unit is under way.
    Busy,
    /// The unit has no inbound queue, and the receiver does not offer its function.
    SysFail,
    /// The receiver is down: it was before, or its volume failed, or the record did not fit on it.
    Down,
}

/// How the work of a claim ended.
#[derive(Drop)]
pub enum Finished {
    /// The unit was executed.
    Executed(Receipt),
    /// The system does not offer the unit's function. The unit waits until it is retried.
    Failed,
    /// The system is down: its volume failed, or the record did not fit on it.
    Down,
}

/// What the sender of a unit is told of its shipment.
#[derive(Drop)]
pub enum Reply {
    /// The receiver has the unit.
    Done(Receipt),
    /// The receiver can't execute the unit.
    SysFail,
    /// Nothing came back.
    Lost,
    /// A run of the unit is under way at the receiver.
    Busy,
}

/// What the sender of a unit did with a reply.
#[derive(Clone, Copy)]
pub enum Replied {
    /// It recorded the reply, or its loss.
    Recorded,
    /// It gave up its claim, and recorded nothing.
    Released,
    /// It is down: its volume failed, or the record did not fit on it.
    Down,
}

/// Why the work of a claim did not end.
#[derive(Clone, Copy, Debug, Error)]
pub enum WorkEnd {
    /// The claim does not stand: a system fell or all claims were revoked since it was made, or it was used already. Nothing has
    /// changed.
    #[error("the claim does not stand")]
    Stale,
    /// A request for memory was refused.
    #[error("out of memory")]
    OutOfMemory,
}

/// What the receiver of a unit did with its confirmation.
#[derive(Clone, Copy)]
pub enum Confirmed {
    /// It has forgotten the transaction id.
    Forgotten,
    /// It had forgotten the transaction id before.
    Already,
    /// It is down: it was before, or its volume failed, or the record did not fit on it.
    Down,
}

/// What the sender of a unit did with the reply to its confirmation.
#[derive(Clone, Copy)]
pub enum Closed {
    /// It recorded that the transaction id is forgotten.
    Recorded,
    /// It had recorded that before.
    Already,
    /// It is down: it was before, or its volume failed, or the record did not fit on it.
    Down,
}

/// Why an operator's record was not appended, or its system is down although it was.
#[derive(Clone, Copy, Debug, Error)]
pub enum OperatorEnd {
    /// The system is down.
    #[error("the system is down")]
    Down,
    /// The record may not follow the log: there is no such queue, or no such unit is outstanding.
    #[error("not allowed")]
    NotAllowed,
    /// The volume is full: with the record it would be this long, in bytes, over 67,108,864. Nothing has changed.
    #[error("volume full at {0}")]
    Full(u64),
    /// A call on the volume failed. The system is down; at its opening the record may be found.
    #[error("volume fault")]
    Volume,
    /// A request for memory was refused: nothing has changed, but perhaps what lies behind the log on the volume, or the record was
    /// appended and the system is down.
    #[error("out of memory")]
    OutOfMemory,
}

/// What came of an earlier request of a unit that came to its receiver now.
#[derive(Clone, Copy)]
pub enum Late {
    /// The unit was taken in, or it has no inbound queue and was run.
    New,
    /// The unit was received before.
    Known,
    /// The unit has no inbound queue, and the receiver does not offer its function.
    SysFail,
    /// The receiver is down: it was before, or its volume failed.
    Down,
}

/// Why an earlier request of a unit did not come to its receiver.
#[derive(Clone, Copy, Debug, Error)]
pub enum LateEnd {
    /// The landscape has no system that the transaction id names. Nothing has changed.
    #[error("no such system")]
    NoSuchSystem,
    /// The sender is down. Nothing has changed.
    #[error("the sender is down")]
    SenderDown,
    /// The sender committed no unit of this transaction id. Nothing has changed.
    #[error("the unit is not committed")]
    NotCommitted,
    /// The unit is not marked CPICERR since its last Retry, or it is done. Nothing has changed.
    #[error("the unit is not marked")]
    NotMarked,
    /// The receiver's volume is full: with the record it would be this long, in bytes, over 67,108,864. The receiver stays up, and
    /// nothing has changed.
    #[error("volume full at {0}")]
    Full(u64),
    /// A request for memory was refused: nothing has changed, but perhaps what lies behind the log on the volume, or the record was
    /// appended and the receiver is down.
    #[error("out of memory")]
    OutOfMemory,
}

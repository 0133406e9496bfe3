//! The records of a log.

use crate::{AleUnit, RawUnitDoc};
use ale_base::{DocNum, FieldValue, Items, Mark, OutOfMemory, QueueName, Tid, Way};

/// A record of a system's log.
#[derive(Clone, Drop)]
pub enum Record {
    /// The first record of a log: the number of the system, and the text of its model.
    Genesis {
        system: u8,
        text: Items<u8>,
    },
    /// Documents were committed: the masters, and for gathered ones the name of their message.
    Commit {
        origin: Option<Items<u8>>,
        docs: Items<RawUnitDoc>,
    },
    /// The documents that waited were made into units.
    Dispatch,
    /// The unit waits until it is retried.
    Mark {
        tid: Tid,
        cause: Mark,
    },
    /// The receiver has the unit.
    Done {
        tid: Tid,
    },
    /// The receiver has forgotten the unit's transaction id.
    Ended {
        tid: Tid,
    },
    /// A unit with inbound queues was taken in, to be executed in their order.
    Accept {
        unit: AleUnit,
    },
    /// A unit that was taken in was executed.
    Execute {
        tid: Tid,
    },
    /// A unit with no inbound queue was taken in and executed.
    Direct {
        unit: AleUnit,
    },
    /// A unit that was taken in can't be executed, since its receiver does not offer its function. It waits until it is
    /// retried.
    Fail {
        tid: Tid,
    },
    /// The unit's transaction id needs not be known any more: its sender knows that it was received.
    Forget {
        tid: Tid,
    },
    /// A queue was stopped. The destination is that of an outbound queue, and 0 for an inbound one.
    Stop {
        way: Way,
        destination: u8,
        name: QueueName,
    },
    /// A queue was started.
    Start {
        way: Way,
        destination: u8,
        name: QueueName,
    },
    /// The unit's mark was removed.
    Retry {
        way: Way,
        tid: Tid,
    },
    /// An object was changed: its kind and key, and the fields with their new values.
    Put {
        kind: Items<u8>,
        key: Items<u8>,
        fields: Items<FieldValue>,
    },
    /// An inbound document that waited was passed to the application.
    App {
        doc: DocNum,
    },
    /// An inbound document that was not posted was passed to the application again.
    Repost {
        doc: DocNum,
    },
    /// The model was replaced: the text of the new one.
    Model {
        text: Items<u8>,
    },
}

impl Record {
    ghost use Rattle.std.specs.Prelude.{◌≡◌, IfOk};

    /// A copy of the record.
    pub fn copied(&self) -> Result<Record, OutOfMemory>
        ensures { IfOk result (λ copy. copy ≡ self.now) }
    {
        Ok(self.clone()?)
    }
}

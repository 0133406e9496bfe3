//! A unit of work.

use crate::RawUnitDoc;
use ale_base::{Fixed, Items, QueueName, SystemNo, Tid};
use std::alloc::AllocError;

/// A unit of work: the documents that one system sends to another in one call, under one transaction id. It is in
/// outbound queues of its sender, and in inbound queues of its receiver.
#[derive(PartialEq, Eq, Drop)]
pub struct AleUnit {
    /// The transaction id.
    pub tid: Tid,
    /// The system that committed it.
    pub sender: SystemNo,
    /// The system that is to execute it.
    pub receiver: SystemNo,
    /// The function that executes it.
    pub function: Fixed<30>,
    /// The outbound queues that it is in.
    pub outq: Items<QueueName>,
    /// The inbound queues that it is in. A unit with none is executed at once.
    pub inq: Items<QueueName>,
    /// The documents, in order.
    pub docs: Items<RawUnitDoc>,
}

impl Clone for AleUnit {
    ghost use Rattle.std.specs.Prelude.{◌≡◌};

    ghost is_clone = { λ unit copy. copy ≡ unit };

    fn clone(&self) -> Result<AleUnit, AllocError> {
        Ok(AleUnit {
            tid: self.tid,
            sender: self.sender,
            receiver: self.receiver,
            function: self.function,
            outq: self.outq.clone()?,
            inq: self.inq.clone()?,
            docs: self.docs.clone()?,
        })
    }
}

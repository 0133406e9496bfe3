//! Units that have no number yet.

use crate::QueueLists;
use ale_base::{DocNum, Fixed, Items, SystemNo};
use unit_core::RawUnitDoc;

/// A unit that has no number yet: to which system it goes, what executes it, its queues and its documents.
#[derive(Drop)]
pub(crate) struct Parcel {
    /// The system that is to execute it.
    pub(crate) receiver: SystemNo,
    /// The function that executes it.
    pub(crate) function: Fixed<30>,
    /// Its queues.
    pub(crate) queues: QueueLists,
    /// The numbers of its documents.
    pub(crate) numbers: Items<DocNum>,
    /// The documents.
    pub(crate) docs: Items<RawUnitDoc>,
}

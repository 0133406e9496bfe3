//! Listings, as they are shown.

use crate::{DocLine, HistoryLine, ObjectLine, QueueLine, SegmentLine, UnitLine};
use ale_base::Items;
use idoc_record::Control;

/// What is shown, line by line in its order.
#[derive(Drop)]
pub enum Listing {
    /// Outbound documents by number, and then inbound ones.
    Docs(Items<DocLine>),
    /// The control record of a document, and its segments.
    Doc(Control, Items<SegmentLine>),
    /// The statuses of a document, in the order in which it got them.
    History(Items<HistoryLine>),
    /// Units that were sent, as they were committed, and then those that were received, as they came.
    Units(Items<UnitLine>),
    /// Outbound queues by destination and name, and then inbound ones by name.
    Queues(Items<QueueLine>),
    /// Objects by kind and key.
    Objects(Items<ObjectLine>),
}

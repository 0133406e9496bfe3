//! What is made for a record before it is written.

use ale_base::Items;
use dist_model::Model;
use inbound_post::DocPosting;
use outbound_build::Added;
use std::sync::Arc;
use unit_core::AleUnit;

/// What is made for a record before it is written, so that the documents that it sends or executes are not read again as it is noted.
#[derive(Drop)]
pub enum Made {
    /// Nothing goes with the record.
    Nothing,
    /// The model that the text of a Genesis or a Model says; none where it says none.
    Brought(Option<Arc<Model>>),
    /// The documents and units that a Commit or a Dispatch adds.
    Sent(Added),
    /// What becomes of the documents of a unit that is received and executed at once.
    Postings(Items<DocPosting>),
    /// A unit that was received and is executed, and what becomes of its documents.
    Executed {
        /// The unit.
        unit: Arc<AleUnit>,
        /// What becomes of each of its documents, in order.
        postings: Items<DocPosting>,
    },
}

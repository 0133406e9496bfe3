//! What becomes of the documents of a unit.

use ale_base::Items;
use object_store::Posting;

/// What becomes of a document that was received.
#[derive(Drop)]
pub enum DocPosting {
    /// It is posted with its unit.
    Post(Posting),
    /// It waits until it is posted by itself, as its profile says.
    Waits,
    /// It is in error: there is no profile for it, or it is not read by its type.
    Errors,
}

/// What a receiver makes of a unit.
#[derive(Drop)]
pub struct Prepared {
    /// Whether the receiver offers the function of the unit.
    pub offered: bool,
    /// What becomes of each document, in order.
    pub postings: Items<DocPosting>,
}

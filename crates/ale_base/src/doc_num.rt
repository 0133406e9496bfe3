//! Numbers of documents.

/// The number of a document at its system, from 1. Outbound and inbound documents are numbered apart.
#[derive(Clone, Copy, PartialEq, Eq)]
pub struct DocNum(pub u64);

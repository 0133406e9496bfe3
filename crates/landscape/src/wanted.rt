//! What commands want: the records that they append.

use dist_model::Model;
use outbound_build::Added;
use std::sync::Arc;
use unit_core::Record;

/// What a command wants that commits documents.
#[derive(Drop)]
pub(crate) struct Commits {
    /// The record: a Commit or a Dispatch.
    pub(crate) next: Record,
    /// The documents and units that it adds.
    pub(crate) added: Added,
}

/// What a command wants that changes the application. Nothing is made for its record.
#[derive(Drop)]
pub(crate) struct Changes {
    /// The record: a Put, an App or a Repost.
    pub(crate) next: Record,
}

/// What a command wants that brings a model into force.
#[derive(Drop)]
pub(crate) struct Brings {
    /// The record: a Model.
    pub(crate) next: Record,
    /// The model that its text says.
    pub(crate) model: Arc<Model>,
}

//! What an operator asks to see.

use ale_base::{DocNum, SystemNo, Way};

/// A listing that is asked for, of a system.
#[derive(Clone, Copy, PartialEq, Eq)]
pub enum Show {
    /// Its documents and their statuses.
    Docs(SystemNo),
    /// One of its outbound documents.
    Doc(SystemNo, DocNum),
    /// What became of one of its documents: outbound ones and inbound ones are numbered apart.
    History(SystemNo, Way, DocNum),
    /// Its units and their states.
    Units(SystemNo),
    /// Its queues that are not empty.
    Queues(SystemNo),
    /// Its objects.
    Objects(SystemNo),
}

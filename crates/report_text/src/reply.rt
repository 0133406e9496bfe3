//! What a command replies.

use status_log::{Refusal, Status};

/// What a command replies.
#[derive(Drop)]
pub enum Reply {
    /// `documents D units U`: of a master that was sent.
    Sent {
        /// How many documents were made.
        documents: u64,
        /// How many units.
        units: u64,
    },
    /// `pointers P`: change pointers that were noted.
    Pointers(u64),
    /// `masters M documents D units U`: of objects that were gathered.
    Gathered {
        /// How many masters were made.
        masters: u64,
        /// How many documents.
        documents: u64,
        /// How many units.
        units: u64,
    },
    /// `units U`: of documents that waited.
    Units(u64),
    /// `models N`: systems at which a model came into force.
    Models(u64),
    /// `finished N`: units that were executed or failed in a drain.
    Finished(u64),
    /// `ok`: the command was carried out.
    Carried,
    /// `new`: the late request was taken in.
    New,
    /// `known`: its unit was received before.
    Known,
    /// `sysfail`: its function is not offered.
    SysFail,
    /// `down`: its receiver is down.
    Down,
    /// `53`, or `51` and the reason: the last status of a document.
    Posted(Status),
    /// `lines L`: how many lines are listed.
    Lines(u64),
    /// `fault`: the volume of the system failed.
    Fault,
    /// `refused N`, and what follows some numbers.
    Refused(Refusal),
}

//! What a command asks for.

ghost use Rattle.std.specs.Prelude.{◌≡◌};
ghost use Rattle.script_text.specs.Forms.{verb_of};

use crate::FileName;
use ale_base::{Change, DocNum, Items, Tid, Way};

/// What a command asks for, by its words. Names are as they are written: whether there is such a system, queue, object or
/// document is not looked at. A system of a landscape is meant by `sys`.
#[derive(Drop)]
pub enum Form {
    /// `send SYS K`: commit the K-th document of the document file as a master.
    Send {
        /// The system that sends it.
        sys: Items<u8>,
        /// The document's place in the file, from 1.
        number: u64,
    },
    /// `put SYS KIND KEY FIELD=VALUE ..`: change an object.
    Put {
        /// The system that has it.
        sys: Items<u8>,
        /// The change. Each word is split at its first equals sign.
        change: Change,
    },
    /// `gather SYS MESSAGE`: make masters of the objects that changed.
    Gather {
        /// The system that has them.
        sys: Items<u8>,
        /// The message type.
        message: Items<u8>,
    },
    /// `dispatch SYS`: make units of the documents that wait.
    Dispatch {
        /// The system at which they wait.
        sys: Items<u8>,
    },
    /// `drain`: work until nothing is offered any more.
    Drain,
    /// `wire TID LETTERS`: say what becomes of the next shipments of a unit.
    Wire {
        /// The unit.
        tid: Tid,
        /// A letter a shipment, 1 to 64 of `oqrtcf`.
        letters: Items<u8>,
    },
    /// `stop SYS out DEST QUEUE` or `stop SYS in QUEUE`: stop a queue.
    Stop {
        /// The system that has the queue.
        sys: Items<u8>,
        /// The system to which an outbound queue leads, and none of an inbound one.
        destination: Option<Items<u8>>,
        /// The name of the queue.
        queue: Items<u8>,
    },
    /// `start SYS out DEST QUEUE` or `start SYS in QUEUE`: let a queue go on.
    Start {
        /// The system that has the queue.
        sys: Items<u8>,
        /// The system to which an outbound queue leads, and none of an inbound one.
        destination: Option<Items<u8>>,
        /// The name of the queue.
        queue: Items<u8>,
    },
    /// `retry SYS TID`: take a unit's mark away.
    Retry {
        /// The system at which it is marked.
        sys: Items<u8>,
        /// The unit.
        tid: Tid,
    },
    /// `late TID`: an earlier request of the unit arrives now.
    Late {
        /// The unit.
        tid: Tid,
    },
    /// `app SYS DOC`: post an inbound document that waits.
    App {
        /// The system that has it.
        sys: Items<u8>,
        /// The document.
        doc: DocNum,
    },
    /// `repost SYS DOC`: post an inbound document again.
    Repost {
        /// The system that has it.
        sys: Items<u8>,
        /// The document.
        doc: DocNum,
    },
    /// `crash SYS`: a system falls.
    Crash {
        /// The system.
        sys: Items<u8>,
    },
    /// `open SYS`: open a system that is down.
    Open {
        /// The system.
        sys: Items<u8>,
    },
    /// `remodel FILE`: bring a model into force at all systems.
    Remodel {
        /// The file with the text of the model.
        file: FileName,
    },
    /// `show docs SYS`: list documents and their statuses.
    ShowDocs {
        /// The system that has them.
        sys: Items<u8>,
    },
    /// `show doc SYS DOC`: print an outbound document.
    ShowDoc {
        /// The system that sent it.
        sys: Items<u8>,
        /// The document.
        doc: DocNum,
    },
    /// `show history SYS out DOC` or `show history SYS in DOC`: list what became of a document.
    ShowHistory {
        /// The system that sent or received it.
        sys: Items<u8>,
        /// Whether it was sent or received.
        way: Way,
        /// The document.
        doc: DocNum,
    },
    /// `show units SYS`: list units and their states.
    ShowUnits {
        /// The system that sent or received them.
        sys: Items<u8>,
    },
    /// `show queues SYS`: list queues.
    ShowQueues {
        /// The system that has them.
        sys: Items<u8>,
    },
    /// `show objects SYS`: list objects.
    ShowObjects {
        /// The system that has them.
        sys: Items<u8>,
    },
}

impl Form {
    /// The first word of the command.
    pub fn verb(&self) -> &'static [u8]
        ensures { result.now ≡ verb_of self.now }
    {
        match self {
            Form::Send { .. } => b"send",
            Form::Put { .. } => b"put",
            Form::Gather { .. } => b"gather",
            Form::Dispatch { .. } => b"dispatch",
            Form::Drain => b"drain",
            Form::Wire { .. } => b"wire",
            Form::Stop { .. } => b"stop",
            Form::Start { .. } => b"start",
            Form::Retry { .. } => b"retry",
            Form::Late { .. } => b"late",
            Form::App { .. } => b"app",
            Form::Repost { .. } => b"repost",
            Form::Crash { .. } => b"crash",
            Form::Open { .. } => b"open",
            Form::Remodel { .. } => b"remodel",
            Form::ShowDocs { .. }
            | Form::ShowDoc { .. }
            | Form::ShowHistory { .. }
            | Form::ShowUnits { .. }
            | Form::ShowQueues { .. }
            | Form::ShowObjects { .. } => b"show",
        }
    }
}

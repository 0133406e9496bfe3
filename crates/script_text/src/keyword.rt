//! The words that commands have as they are.

ghost use Rattle.std.specs.Prelude.{◌≡◌};
ghost use Rattle.script_text.specs.Kinds.{text_of};

/// A word that is written in one way.
#[derive(Clone, Copy)]
pub(crate) enum Keyword {
    Send,
    Put,
    Gather,
    Dispatch,
    Drain,
    Wire,
    Stop,
    Start,
    Retry,
    Late,
    App,
    Repost,
    Crash,
    Open,
    Remodel,
    Show,
    Out,
    In,
    Docs,
    Doc,
    History,
    Units,
    Queues,
    Objects,
}

impl Keyword {
    /// How it is written.
    pub(crate) fn text(self) -> &'static [u8]
        ensures { result.now ≡ text_of self }
    {
        match self {
            Keyword::Send => b"send",
            Keyword::Put => b"put",
            Keyword::Gather => b"gather",
            Keyword::Dispatch => b"dispatch",
            Keyword::Drain => b"drain",
            Keyword::Wire => b"wire",
            Keyword::Stop => b"stop",
            Keyword::Start => b"start",
            Keyword::Retry => b"retry",
            Keyword::Late => b"late",
            Keyword::App => b"app",
            Keyword::Repost => b"repost",
            Keyword::Crash => b"crash",
            Keyword::Open => b"open",
            Keyword::Remodel => b"remodel",
            Keyword::Show => b"show",
            Keyword::Out => b"out",
            Keyword::In => b"in",
            Keyword::Docs => b"docs",
            Keyword::Doc => b"doc",
            Keyword::History => b"history",
            Keyword::Units => b"units",
            Keyword::Queues => b"queues",
            Keyword::Objects => b"objects",
        }
    }
}

//! The table of commands: how each is written.

ghost use Rattle.std.specs.Prelude.{◌≡◌, find};
ghost use Rattle.std.specs.List.{list_all};
ghost use Rattle.script_text.specs.Kinds.{is_field};
ghost use Rattle.script_text.specs.Words.{texts};
ghost use Rattle.script_text.specs.Forms.{pattern_of, are_of, ends_with, fits, shapes, shape_of};

use crate::keyword::Keyword;
use crate::kind::Kind::{Any, Id, Letters, Number, The, Utf8};
use crate::kind::{Kind, is_field};

/// How a command is written: a row of the table.
#[derive(Clone, Copy)]
pub(crate) enum Shape {
    Send,
    Put,
    Gather,
    Dispatch,
    Drain,
    Wire,
    StopOut,
    StopIn,
    StartOut,
    StartIn,
    Retry,
    Late,
    App,
    Repost,
    Crash,
    Open,
    Remodel,
    ShowDocs,
    ShowDoc,
    ShowHistoryOut,
    ShowHistoryIn,
    ShowUnits,
    ShowQueues,
    ShowObjects,
}

impl Shape {
    /// All shapes, in the order of the table.
    const ALL: [Shape; 24] = [
        Shape::Send,
        Shape::Put,
        Shape::Gather,
        Shape::Dispatch,
        Shape::Drain,
        Shape::Wire,
        Shape::StopOut,
        Shape::StopIn,
        Shape::StartOut,
        Shape::StartIn,
        Shape::Retry,
        Shape::Late,
        Shape::App,
        Shape::Repost,
        Shape::Crash,
        Shape::Open,
        Shape::Remodel,
        Shape::ShowDocs,
        Shape::ShowDoc,
        Shape::ShowHistoryOut,
        Shape::ShowHistoryIn,
        Shape::ShowUnits,
        Shape::ShowQueues,
        Shape::ShowObjects,
    ];

    /// The kinds of its words, and behind them those of its fields, where it takes some.
    fn kinds(self) -> &'static [Kind]
        ensures { result.now ≡ (pattern_of self).words }
    {
        match self {
            Shape::Send => &[The(Keyword::Send), Any, Number],
            Shape::Put => &[The(Keyword::Put), Any, Any, Any],
            Shape::Gather => &[The(Keyword::Gather), Any, Any],
            Shape::Dispatch => &[The(Keyword::Dispatch), Any],
            Shape::Drain => &[The(Keyword::Drain)],
            Shape::Wire => &[The(Keyword::Wire), Id, Letters],
            Shape::StopOut => &[The(Keyword::Stop), Any, The(Keyword::Out), Any, Any],
            Shape::StopIn => &[The(Keyword::Stop), Any, The(Keyword::In), Any],
            Shape::StartOut => &[The(Keyword::Start), Any, The(Keyword::Out), Any, Any],
            Shape::StartIn => &[The(Keyword::Start), Any, The(Keyword::In), Any],
            Shape::Retry => &[The(Keyword::Retry), Any, Id],
            Shape::Late => &[The(Keyword::Late), Id],
            Shape::App => &[The(Keyword::App), Any, Number],
            Shape::Repost => &[The(Keyword::Repost), Any, Number],
            Shape::Crash => &[The(Keyword::Crash), Any],
            Shape::Open => &[The(Keyword::Open), Any],
            Shape::Remodel => &[The(Keyword::Remodel), Utf8],
            Shape::ShowDocs => &[The(Keyword::Show), The(Keyword::Docs), Any],
            Shape::ShowDoc => &[The(Keyword::Show), The(Keyword::Doc), Any, Number],
            Shape::ShowHistoryOut => &[
                The(Keyword::Show),
                The(Keyword::History),
                Any,
                The(Keyword::Out),
                Number,
            ],
            Shape::ShowHistoryIn => &[
                The(Keyword::Show),
                The(Keyword::History),
                Any,
                The(Keyword::In),
                Number,
            ],
            Shape::ShowUnits => &[The(Keyword::Show), The(Keyword::Units), Any],
            Shape::ShowQueues => &[The(Keyword::Show), The(Keyword::Queues), Any],
            Shape::ShowObjects => &[The(Keyword::Show), The(Keyword::Objects), Any],
        }
    }

    /// Whether words `FIELD=VALUE` follow, one at least.
    fn takes_fields(self) -> bool
        ensures { result ≡ (pattern_of self).fields }
    {
        match self {
            Shape::Put => true,
            _ => false,
        }
    }

    /// Whether words are written so.
    fn fits(self, words: &[&[u8]]) -> bool
        ensures { result ≡ fits (pattern_of self) (texts words.now) }
    {
        let kinds = self.kinds();
        if words.len() < kinds.len() {
            return false;
        }
        let (front, behind) = words.split_at(kinds.len());
        are_of(kinds, front) && ends_with(self.takes_fields(), behind)
    }

    /// The shape of words. None exactly where they have none.
    #[tactic(auto, unfolding(crate::specs::Forms::shape_of))]
    pub(crate) fn of(words: &[&[u8]]) -> Option<Shape>
        ensures { result ≡ shape_of (texts words.now) }
    {
        first_fit(&Shape::ALL, words)
    }
}

/// The first of these shapes in which words are written.
fn first_fit(shapes: &[Shape], words: &[&[u8]]) -> Option<Shape>
    ensures { result ≡ find (λ shape. fits (pattern_of shape) (texts words.now)) shapes.now }
{
    for shape in shapes {
        if shape.fits(words) {
            return Some(*shape);
        }
    }
    None
}

/// Whether words are of these kinds, one for one.
fn are_of(kinds: &[Kind], words: &[&[u8]]) -> bool
    ensures { result ≡ are_of kinds.now (texts words.now) }
{
    if kinds.len() != words.len() {
        return false;
    }
    for at in 0..kinds.len() {
        if !kinds[at].takes(words[at]) {
            return false;
        }
    }
    true
}

/// Whether words may follow those of a shape.
fn ends_with(fields: bool, words: &[&[u8]]) -> bool
    ensures { result ≡ ends_with fields (texts words.now) }
{
    if fields {
        0 < words.len() && are_fields(words)
    } else {
        words.is_empty()
    }
}

/// Whether each word is `FIELD=VALUE`.
fn are_fields(words: &[&[u8]]) -> bool
    ensures { result ≡ list_all (λ word. is_field word.now) words.now }
{
    words.iter().all(|word| is_field(word))
}

//! What a line of a case file is, and which may follow which.

ghost use Rattle.std.specs.Prelude.{◌≡◌, Ok, IfOk, IfErr};
ghost use Rattle.case_form.specs.Rules.{IsBroken};
ghost use Rattle.case_form.specs.Items.{is_skipped, title_kind, head_kind, filled_kind, kind_of};

use crate::rule::{LineEnd, blank_at_end, no_block, no_item, one_title};
use crate::text::first_word;

/// What a line is.
#[derive(Clone, Copy)]
pub(crate) enum Kind {
    /// It is empty, or a comment.
    Skipped,
    Title,
    /// `differs`: the next item is marked.
    Mark,
    /// The line of an item.
    Head,
    /// A line of a block.
    Indented,
}

/// What a line is, wherever it stands.
pub(crate) fn kind_of(line: &[u8]) -> Result<Kind, LineEnd>
    ensures kind { IfOk result (λ kind. kind_of line.now ≡ Ok kind) }
    ensures fault { IfErr result (IsBroken (kind_of line.now)) }
{
    if is_skipped(line) {
        return Ok(Kind::Skipped);
    }
    filled_kind(line)
}

/// Whether a line is empty or a comment.
fn is_skipped(line: &[u8]) -> bool
    ensures { result ≡ is_skipped line.now }
{
    match line {
        [] => true,
        [first, ..] => *first == b'#',
    }
}

/// What a line is that is not skipped.
fn filled_kind(line: &[u8]) -> Result<Kind, LineEnd>
    ensures kind { IfOk result (λ kind. filled_kind line.now ≡ Ok kind) }
    ensures fault { IfErr result (IsBroken (filled_kind line.now)) }
{
    if line.ends_with(b" ") {
        return Err(LineEnd::Broken(blank_at_end()));
    }
    if line.starts_with(b"  ") {
        return Ok(Kind::Indented);
    }
    head_kind(line)
}

/// What a line is that is not indented.
fn head_kind(line: &[u8]) -> Result<Kind, LineEnd>
    ensures kind { IfOk result (λ kind. head_kind line.now ≡ Ok kind) }
    ensures fault { IfErr result (IsBroken (head_kind line.now)) }
{
    let (word, rest) = first_word(line);
    if word == b"title".as_slice() {
        return title_kind(rest);
    }
    if line == b"differs".as_slice() {
        return Ok(Kind::Mark);
    }
    Ok(Kind::Head)
}

/// A title says something.
fn title_kind(title: &[u8]) -> Result<Kind, LineEnd>
    ensures kind { IfOk result (λ kind. title_kind title.now ≡ Ok kind) }
    ensures fault { IfErr result (IsBroken (title_kind title.now)) }
{
    if title.is_empty() {
        return Err(LineEnd::Broken(one_title()));
    }
    Ok(Kind::Title)
}

/// What was read of a file last, comments aside.
#[derive(Clone, Copy)]
pub(crate) enum Place {
    /// Nothing.
    Start,
    /// The title.
    Titled,
    /// A mark.
    Marked,
    /// An item, with its block so far.
    Open,
}

impl Place {
    ghost use Rattle.std.specs.Prelude.{◌≡◌, Ok, IfOk, OnOk, IfErr};
    ghost use Rattle.case_form.specs.declared.line.Place.{Place};
    ghost use Rattle.case_form.specs.Rules.{IsBroken};
    ghost use Rattle.case_form.specs.Items.{follow, ended, is_marked};

    /// The place behind one more line.
    pub(crate) fn behind(self, kind: Kind) -> Result<Place, LineEnd>
        ensures place { IfOk result (λ place. follow self kind ≡ Ok place) }
        ensures fault { IfErr result (IsBroken (follow self kind)) }
    {
        match (kind, self) {
            (Kind::Skipped, place) => Ok(place),
            (Kind::Title, Place::Start) => Ok(Place::Titled),
            (Kind::Mark, Place::Titled | Place::Open) => Ok(Place::Marked),
            (Kind::Head, Place::Titled | Place::Marked | Place::Open) => Ok(Place::Open),
            (Kind::Indented, Place::Open) => Ok(Place::Open),
            (Kind::Title, _) | (Kind::Mark | Kind::Head, Place::Start) => {
                Err(LineEnd::Broken(one_title()))
            }
            (Kind::Mark, Place::Marked) => Err(LineEnd::Broken(no_item())),
            (Kind::Indented, _) => Err(LineEnd::Broken(no_block())),
        }
    }

    /// Whether a file may end here.
    pub(crate) fn ended(self) -> Result<(), LineEnd>
        ensures place { OnOk result (ended self ≡ Ok Place.Open) }
        ensures fault { IfErr result (IsBroken (ended self)) }
    {
        match self {
            Place::Start => Err(LineEnd::Broken(one_title())),
            Place::Titled | Place::Marked => Err(LineEnd::Broken(no_item())),
            Place::Open => Ok(()),
        }
    }

    /// Whether the next item is marked.
    pub(crate) fn is_marked(self) -> bool
        ensures { result ≡ is_marked self }
    {
        matches!(self, Place::Marked)
    }
}

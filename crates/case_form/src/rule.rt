//! Rules of case files, and why a case file is not read.

ghost use Rattle.std.specs.Prelude.{◌≡◌};
ghost use Rattle.case_form.specs.Rules.{not_named_case, blank_at_end, one_title, no_item, no_block, open_brace, bad_number};

use ale_base::OutOfMemory;
use std::alloc::{AllocError, AllocFailed};

/// A rule of case files that a line breaks, as it is printed. Each program has rules of its own beside those here.
#[derive(Clone, Copy, PartialEq, Eq)]
pub struct Rule(pub &'static str);

impl Rule {
    pub const NOT_NAMED_CASE: Rule = Rule("the name of a case file ends in .case");

    pub const BLANK_AT_END: Rule = Rule("a line of a case file ends in no blank: write {blank}");

    pub const ONE_TITLE: Rule = Rule("a case has one title, before all other items");

    pub const NO_ITEM: Rule = Rule("a case has an item behind its title, and behind a mark");

    pub const NO_BLOCK: Rule = Rule("lines that are indented belong to an item that has a block");

    pub const OPEN_BRACE: Rule = Rule("a brace is not closed");

    pub const BAD_NUMBER: Rule = Rule(
        "a count is decimal digits, and a byte is # and a number up to 255",
    );
}

// The rules, each with its text.
pub(crate) fn not_named_case() -> Rule
    ensures { result.0.now ≡ not_named_case }
{
    Rule::NOT_NAMED_CASE
}

pub(crate) fn blank_at_end() -> Rule
    ensures { result.0.now ≡ blank_at_end }
{
    Rule::BLANK_AT_END
}

pub(crate) fn one_title() -> Rule
    ensures { result.0.now ≡ one_title }
{
    Rule::ONE_TITLE
}

pub(crate) fn no_item() -> Rule
    ensures { result.0.now ≡ no_item }
{
    Rule::NO_ITEM
}

pub(crate) fn no_block() -> Rule
    ensures { result.0.now ≡ no_block }
{
    Rule::NO_BLOCK
}

pub(crate) fn open_brace() -> Rule
    ensures { result.0.now ≡ open_brace }
{
    Rule::OPEN_BRACE
}

pub(crate) fn bad_number() -> Rule
    ensures { result.0.now ≡ bad_number }
{
    Rule::BAD_NUMBER
}

/// Why a case file is not read.
#[derive(Clone, Copy, PartialEq, Eq)]
pub enum CaseFault {
    /// The line of this number, from 1, breaks this rule.
    Malformed { line: u32, rule: Rule },
    OutOfMemory,
}

/// Why a line of a case file is not read.
#[derive(Clone, Copy, PartialEq, Eq)]
pub enum LineEnd {
    Broken(Rule),
    OutOfMemory,
}

impl LineEnd {
    ghost use Rattle.std.specs.Prelude.{◌≡◌};
    ghost use Rattle.case_form.specs.Rules.{at};

    /// The end of a line, at the line of this number.
    pub fn at(self, line: u32) -> CaseFault
        ensures { result ≡ at line self }
    {
        match self {
            LineEnd::Broken(rule) => CaseFault::Malformed { line, rule },
            LineEnd::OutOfMemory => CaseFault::OutOfMemory,
        }
    }
}

impl From<Rule> for LineEnd {
    ghost use Rattle.std.specs.Prelude.{◌≡◌};
    ghost use Rattle.case_form.specs.declared.rule.LineEnd.TheVariants.{Broken};

    ghost from_gives = { λ rule end. end ≡ Broken rule };

    fn from(rule: Rule) -> LineEnd {
        LineEnd::Broken(rule)
    }
}

impl From<AllocError> for LineEnd {
    ghost use Rattle.std.specs.Prelude.{◌≡◌};
    ghost use Rattle.case_form.specs.declared.rule.LineEnd.TheVariants.{OutOfMemory};

    ghost from_gives = { λ _ end. end ≡ OutOfMemory };

    fn from(_error: AllocError) -> LineEnd {
        LineEnd::OutOfMemory
    }
}

impl<T: Drop> From<AllocFailed<T>> for LineEnd {
    ghost use Rattle.std.specs.Prelude.{◌≡◌};
    ghost use Rattle.case_form.specs.declared.rule.LineEnd.TheVariants.{OutOfMemory};

    ghost from_gives = { λ _ end. end ≡ OutOfMemory };

    fn from(_error: AllocFailed<T>) -> LineEnd {
        LineEnd::OutOfMemory
    }
}

impl From<OutOfMemory> for LineEnd {
    ghost use Rattle.std.specs.Prelude.{◌≡◌};
    ghost use Rattle.case_form.specs.declared.rule.LineEnd.TheVariants.{OutOfMemory};

    ghost from_gives = { λ _ end. end ≡ OutOfMemory };

    fn from(_error: OutOfMemory) -> LineEnd {
        LineEnd::OutOfMemory
    }
}

impl From<AllocError> for CaseFault {
    ghost use Rattle.std.specs.Prelude.{◌≡◌};
    ghost use Rattle.case_form.specs.declared.rule.CaseFault.TheVariants.{OutOfMemory};

    ghost from_gives = { λ _ end. end ≡ OutOfMemory };

    fn from(_error: AllocError) -> CaseFault {
        CaseFault::OutOfMemory
    }
}

impl<T: Drop> From<AllocFailed<T>> for CaseFault {
    ghost use Rattle.std.specs.Prelude.{◌≡◌};
    ghost use Rattle.case_form.specs.declared.rule.CaseFault.TheVariants.{OutOfMemory};

    ghost from_gives = { λ _ end. end ≡ OutOfMemory };

    fn from(_error: AllocFailed<T>) -> CaseFault {
        CaseFault::OutOfMemory
    }
}

impl From<OutOfMemory> for CaseFault {
    ghost use Rattle.std.specs.Prelude.{◌≡◌};
    ghost use Rattle.case_form.specs.declared.rule.CaseFault.TheVariants.{OutOfMemory};

    ghost from_gives = { λ _ end. end ≡ OutOfMemory };

    fn from(_error: OutOfMemory) -> CaseFault {
        CaseFault::OutOfMemory
    }
}

//! What a case expects, what was found, and whether it passes.

ghost use Rattle.std.specs.Prelude.{◌≡◌};
ghost use Rattle.std.specs.List.{list_all};
ghost use Rattle.case_form.specs.Verdict.{fits, is_as_marked, are_as_marked};

use crate::rule::Rule;
use ale_base::Items;

/// How the text that was found has to stand to the one that the case expects.
#[derive(Clone, Copy, PartialEq, Eq)]
pub enum Relation {
    /// It is the same.
    Whole,
    /// It is a front of it.
    FrontOf,
    /// It begins with it.
    First,
    /// It ends with it.
    Last,
}

/// A text that a case expects, and the one that was found.
#[derive(Drop)]
pub struct Comparison {
    /// What is compared, as it is printed where it differs.
    pub what: Items<u8>,
    pub relation: Relation,
    pub expected: Items<u8>,
    pub found: Items<u8>,
}

impl Comparison {
    /// Whether what was found is as expected.
    pub fn fits(&self) -> bool
        ensures { result ≡ fits self.now }
    {
        let expected = self.expected.as_slice();
        let found = self.found.as_slice();
        match self.relation {
            Relation::Whole => found == expected,
            Relation::FrontOf => expected.starts_with(found),
            Relation::First => found.starts_with(expected),
            Relation::Last => found.ends_with(expected),
        }
    }
}

/// A step of a case, with all that it compares.
#[derive(Drop)]
pub struct Step {
    /// The line of its item in the case file, from 1.
    pub line: u32,
    /// Whether it is marked: what it expects is wrong on purpose.
    pub differs: bool,
    pub comparisons: Items<Comparison>,
}

impl Step {
    ghost use Rattle.case_form.specs.Verdict.{all_fit, is_as_marked};

    /// Whether all that was found is as expected.
    pub fn fits(&self) -> bool
        ensures { result ≡ all_fit self.now }
    {
        self.comparisons.iter().all(|comparison| comparison.fits())
    }

    /// Whether all fits, or, where the step is marked, something differs.
    pub fn is_as_marked(&self) -> bool
        ensures { result ≡ is_as_marked self.now }
    {
        self.fits() != self.differs
    }
}

/// What came of a case file.
#[derive(Drop)]
pub enum Outcome {
    /// The line of this number, from 1, breaks this rule.
    Malformed { line: u32, rule: Rule },
    /// The case's steps were made, in order.
    Steps(Items<Step>),
}

impl Outcome {
    ghost use Rattle.case_form.specs.Verdict.{passes, steps_of};

    /// How many steps were made.
    pub fn steps(&self) -> usize
        ensures { result ≡ steps_of self.now }
    {
        match self {
            Outcome::Malformed { .. } => 0,
            Outcome::Steps(steps) => steps.len(),
        }
    }

    /// Whether the case passes: it is well-formed, it has a step at least, and each is as it is marked.
    pub fn passes(&self) -> bool
        ensures { result ≡ passes self.now }
    {
        match self {
            Outcome::Malformed { .. } => false,
            Outcome::Steps(steps) => are_as_marked(steps.as_slice()),
        }
    }
}

/// Whether there is a step, and each is as it is marked.
fn are_as_marked(steps: &[Step]) -> bool
    ensures { result ≡ are_as_marked steps.now }
{
    !steps.is_empty() && all_as_marked(steps)
}

/// Whether each step is as it is marked.
fn all_as_marked(steps: &[Step]) -> bool
    ensures { result ≡ list_all is_as_marked steps.now }
{
    steps.iter().all(|step| step.is_as_marked())
}

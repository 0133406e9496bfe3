//! Steps and outcomes as programs make them.

ghost use Rattle.std.specs.Prelude.{◌≡◌, [], ◌∷◌, IfOk};

use crate::item::Item;
use crate::rule::CaseFault;
use crate::verdict::{Comparison, Outcome, Relation, Step};
use ale_base::{Items, OutOfMemory};
use std::alloc::{AllocError, Global};

impl Step {
    ghost use Rattle.std.specs.Prelude.{IfErr};
    ghost use Rattle.case_form.specs.Rules.{IsFaultOf};
    ghost use Rattle.case_form.specs.Items.{block_read};
    ghost use Rattle.case_form.specs.Made.{IsStepOf, IsBrokenStepOf};

    /// The step of an item whose block stands for the text that is expected to be found; or the first line of the block that breaks
    /// a rule.
    pub fn of(alloc: Global, item: &Item, found: Vec<u8>) -> Result<Step, CaseFault>
        ensures step { IfOk result (IsStepOf item.now found.items) }
        ensures fault { IfErr result (IsFaultOf (block_read item.now.block.items)) }
    {
        let expected = item.text(alloc)?;
        let what = what_of(alloc, item)?;
        Ok(step_of(alloc, item, what, expected, found)?)
    }

    /// The step of an item whose block is a text that is no case, and whose line says which line breaks which rule.
    pub fn of_broken(
        alloc: Global,
        item: &Item,
        fault: Option<CaseFault>,
    ) -> Result<Step, CaseFault>
        ensures { IfOk result (IsBrokenStepOf item.now.line item.now.differs item.now.rest.items) }
    {
        let expected = Vec::from_slice(alloc, item.rest.as_slice())?;
        let found = told(alloc, fault)?;
        let what = Vec::from_slice(alloc, b"broken")?;
        Ok(step_of(alloc, item, what, expected, found)?)
    }
}

impl Outcome {
    ghost use Rattle.case_form.specs.Made.{IsOutcomeOf};

    /// What came of a case whose steps were made, or which is malformed.
    pub fn of(made: Result<Items<Step>, CaseFault>) -> Result<Outcome, OutOfMemory>
        ensures { IfOk result (IsOutcomeOf made) }
    {
        match made {
            Ok(steps) => Ok(Outcome::Steps(steps)),
            Err(CaseFault::Malformed { line, rule }) => Ok(Outcome::Malformed { line, rule }),
            Err(CaseFault::OutOfMemory) => Err(OutOfMemory),
        }
    }
}

/// A step of an item that compares one text.
fn step_of(
    alloc: Global,
    item: &Item,
    what: Vec<u8>,
    expected: Vec<u8>,
    found: Vec<u8>,
) -> Result<Step, OutOfMemory>
    ensures { IfOk result (λ step. step ≡ record {
      line = item.now.line;
      differs = item.now.differs;
      comparisons = record { what = what.items; relation = Relation.Whole; expected = expected.items; found = found.items } ∷ [];
    }) }
{
    let mut comparisons = Items::new(alloc);
    comparisons.push(Comparison {
        what: Items::from_vec(what),
        relation: Relation::Whole,
        expected: Items::from_vec(expected),
        found: Items::from_vec(found),
    })?;
    Ok(Step {
        line: item.line,
        differs: item.differs,
        comparisons,
    })
}

/// The line of an item.
fn what_of(alloc: Global, item: &Item) -> Result<Vec<u8>, AllocError> {
    let mut what = Vec::from_slice(alloc, item.word.as_slice())?;
    if !item.rest.is_empty() {
        what.extend_from_slice(b" ")?;
        what.extend_from_slice(item.rest.as_slice())?;
    }
    Ok(what)
}

/// The line and the rule of a fault.
fn told(alloc: Global, fault: Option<CaseFault>) -> Result<Vec<u8>, CaseFault> {
    match fault {
        Some(CaseFault::Malformed { line, rule }) => {
            let rule = rule.0;
            let told = format!(in alloc; "{line} {rule}")?;
            Ok(Vec::from_slice(alloc, told.as_bytes())?)
        }
        Some(CaseFault::OutOfMemory) => Err(CaseFault::OutOfMemory),
        None => Ok(Vec::from_slice(alloc, b"a case")?),
    }
}

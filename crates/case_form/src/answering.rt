//! Cases whose items are answered one after another.

ghost use Rattle.std.specs.Prelude.{IfOk, IfErr, OnOk};
ghost use Rattle.case_form.specs.Answered.{AreAnswered, Follows, IsAnswered, IsEndAt, IsEndIn};

use crate::item::{Item, read_items};
use crate::rule::{CaseFault, LineEnd};
use crate::verdict::{Outcome, Step};
use ale_base::{Items, OutOfMemory};
use std::alloc::Global;

/// What the items of a case work on, one after another.
pub trait Bench: Drop {
    ghost use Rattle.std.specs.Prelude.{◌≡◌, ℕ, List, Bool, false, not, IfOk, IfSome};
    ghost use Rattle.std.specs.Option.{is_some};
    ghost use Rattle.case_form.specs.declared.item.Item.{Item};

    // An item of this word sets something up for those behind it, and finds no text.
    ghost sets_up: { List ℕ → Bool } = { λ _. false };

    // An item may find this text.
    ghost finds: { Item → List ℕ → Type 0 } = { λ _ _. Unit {0} };

    /// The text that an item finds, none where its word sets something up; or the rule that its line breaks.
    fn found(&mut self, alloc: Global, item: &Item) -> Result<Option<Vec<u8>>, LineEnd>
        ensures word { IfOk result (λ found. is_some found ≡ not (sets_up item.now.word.items)) }
        ensures text { IfOk result (λ found. IfSome found (λ text. finds item.now text.items)) };
}

/// What came of a case file whose items are answered on a bench, in order: a step for each whose word sets nothing up, of a
/// text that the item finds on the bench, which is compared with the item's block. Malformed where a line breaks a rule of the form, or
/// one is told at the line of an item.
pub fn outcome_on<B: Bench>(
    alloc: Global,
    bench: &mut B,
    file: &str,
    bytes: &[u8],
) -> Result<Outcome, OutOfMemory>
    ensures { IfOk result (IsAnswered B.sets_up B.finds file.now bytes.now) }
{
    match read_items(alloc, file, bytes) {
        Ok(items) => Outcome::of(steps_on(alloc, bench, items.as_slice())),
        Err(fault) => Outcome::of(Err(fault)),
    }
}

/// The steps of items on a bench.
fn steps_on<B: Bench>(
    alloc: Global,
    bench: &mut B,
    items: &[Item],
) -> Result<Items<Step>, CaseFault>
    ensures steps { IfOk result (AreAnswered B.sets_up B.finds items.now) }
    ensures fault { IfErr result (IsEndIn items.now) }
{
    let mut steps = Items::new(alloc);
    for item in items {
        put_step(alloc, bench, item, &mut steps)?;
    }
    Ok(steps)
}

/// Adds the step of an item, where its word sets nothing up.
fn put_step<B: Bench>(
    alloc: Global,
    bench: &mut B,
    item: &Item,
    steps: &mut Items<Step>,
) -> Result<(), CaseFault>
    ensures step { OnOk result (Follows B.finds (B.sets_up item.now.word.items) item.now steps.old steps.new) }
    ensures fault { IfErr result (IsEndAt item.now) }
{
    match bench.found(alloc, item) {
        Ok(Some(found)) => Ok(steps.push(Step::of(alloc, item, found)?)?),
        Ok(None) => Ok(()),
        Err(end) => Err(end.at(item.line)),
    }
}

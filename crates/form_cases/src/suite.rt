//! The suite: items that find what they say.

use ale_base::{Items, OutOfMemory};
use case_form::{
    CaseFault, Item, LineEnd, Outcome, Rule, Step, Suite, Texts, put_text, read_items,
};
use std::alloc::Global;

/// The one rule of this program beside the form.
const NO_SUCH_ITEM: Rule = Rule("an item is title, finds or broken");

/// Cases of which each step finds what its item says.
pub(crate) struct Echoes;

impl Suite for Echoes {
    fn outcome(
        &self,
        alloc: Global,
        _texts: &Texts,
        file: &str,
        bytes: &[u8],
    ) -> Result<Outcome, OutOfMemory> {
        Outcome::of(steps_of(alloc, file, bytes))
    }
}

/// The steps of a case file, one for each item.
fn steps_of(alloc: Global, file: &str, bytes: &[u8]) -> Result<Items<Step>, CaseFault> {
    let mut steps = Items::new(alloc);
    for item in read_items(alloc, file, bytes)? {
        steps.push(step_of(alloc, &item)?)?;
    }
    Ok(steps)
}

/// The step of an item.
fn step_of(alloc: Global, item: &Item) -> Result<Step, CaseFault> {
    let word = item.word.as_slice();
    if word == b"finds".as_slice() {
        Step::of(alloc, item, echo(alloc, item)?)
    } else if word == b"broken".as_slice() {
        broken(alloc, item)
    } else {
        Err(LineEnd::Broken(NO_SUCH_ITEM).at(item.line))
    }
}

/// What stands behind the word of an item, as a line.
fn echo(alloc: Global, item: &Item) -> Result<Vec<u8>, CaseFault> {
    let mut found = Vec::new(alloc);
    put_text(&mut found, item.rest.as_slice()).map_err(|end| end.at(item.line))?;
    found.push(b'\n')?;
    Ok(found)
}

/// The step of a text that is no case.
fn broken(alloc: Global, item: &Item) -> Result<Step, CaseFault> {
    let text = item.text(alloc)?;
    let fault = read_items(alloc, "broken.case", text.as_slice()).err();
    Step::of_broken(alloc, item, fault)
}

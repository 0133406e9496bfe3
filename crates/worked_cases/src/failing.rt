//! The calls that fail in a run, as a case writes them.

use crate::case::Failing;
use crate::rules;
use ale_base::{Items, OutOfMemory};
use case_form::{LineEnd, first_word, meaning_of, number_of};
use std::alloc::Global;

/// A call that may fail.
#[derive(Clone, Copy)]
pub(crate) enum FailingCall {
    Read,
    Put,
    Volume,
}

/// The words of the calls that may fail.
const CALLS: [(&'static [u8], FailingCall); 3] = [
    (b"read", FailingCall::Read),
    (b"put", FailingCall::Put),
    (b"volume", FailingCall::Volume),
];

impl FailingCall {
    /// Adds the call of this number to those that fail.
    pub(crate) fn add(self, failing: &mut Failing, number: u32) -> Result<(), OutOfMemory> {
        let number = u64::from(number);
        match self {
            FailingCall::Read => failing.reads.push(number),
            FailingCall::Put => failing.puts.push(number),
            FailingCall::Volume => failing.calls.push(number),
        }
    }
}

/// The calls from one number to another, each of which fails in a run of its own.
#[derive(Clone, Copy)]
pub(crate) struct Each {
    pub(crate) call: FailingCall,
    pub(crate) first: u32,
    pub(crate) last: u32,
}

impl Each {
    /// Whether it is one call.
    pub(crate) fn is_one(self) -> bool {
        self.first == self.last
    }

    /// What fails in each of the runs, where these calls fail in all of them.
    pub(crate) fn choices(
        each: Option<Each>,
        alloc: Global,
        always: Failing,
    ) -> Result<Items<Failing>, OutOfMemory> {
        let mut choices = Items::new(alloc);
        let Some(Each { call, first, last }) = each else {
            choices.push(always)?;
            return Ok(choices);
        };
        for number in first..=last {
            let mut failing = always.copied(alloc)?;
            call.add(&mut failing, number)?;
            choices.push(failing)?;
        }
        Ok(choices)
    }
}

/// The calls that an item chooses to fail, as `read`, `put` or `volume` and a number from 1, or two with `to` between.
pub(crate) fn failing_call(text: &[u8]) -> Result<Each, LineEnd> {
    let (word, rest) = first_word(text);
    let (first, rest) = first_word(rest);
    let first = number_of(first)?;
    let last = match rest.strip_prefix(b"to ") {
        Some(last) => number_of(last)?,
        None if rest.is_empty() => first,
        None => return Err(rules::NO_SUCH_CALL.into()),
    };
    match meaning_of(&CALLS, word) {
        Some(call) if first > 0 && first <= last => Ok(Each { call, first, last }),
        _ => Err(rules::NO_SUCH_CALL.into()),
    }
}

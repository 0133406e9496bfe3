//! The suite: a case file's items, answered one after another on one bench.

use crate::bench::SendingBench;
use ale_base::OutOfMemory;
use case_form::{Outcome, Suite, Texts, outcome_on};
use std::alloc::Global;

/// The cases of what is sent.
pub(crate) struct OutboundCases;

impl Suite for OutboundCases {
    ghost use Rattle.case_form.specs.Answered.{IsAnswered};
    ghost use Rattle.outbound_cases.specs.Bench.{sets_up};

    ghost comes_out = { λ _ _ file bytes outcome. IsAnswered sets_up (λ _ _. Unit {0}) file bytes outcome };

    fn outcome(
        &self,
        alloc: Global,
        texts: &Texts,
        file: &str,
        bytes: &[u8],
    ) -> Result<Outcome, OutOfMemory> {
        let mut bench = SendingBench::new(alloc, texts);
        outcome_on(alloc, &mut bench, file, bytes)
    }
}

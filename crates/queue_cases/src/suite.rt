//! The suite of cases of queues: calls that are made one after another on the same queues.

use crate::calls::perform;
use ale_base::OutOfMemory;
use case_form::{Bench, Item, LineEnd, Outcome, Suite, Text, Texts, outcome_on};
use multi_queue::Queues;
use std::alloc::Global;

/// Calls on queues.
pub(crate) struct QueueCases;

impl Suite for QueueCases {
    ghost use Rattle.case_form.specs.Answered.{IsAnswered};
    ghost use Rattle.std.specs.Prelude.{false};

    ghost comes_out = { λ _ _ file bytes outcome. IsAnswered (λ _. false) (λ _ _. Unit {0}) file bytes outcome };

    fn outcome(
        &self,
        alloc: Global,
        _texts: &Texts,
        file: &str,
        bytes: &[u8],
    ) -> Result<Outcome, OutOfMemory> {
        let queues = Queues::new(alloc);
        outcome_on(alloc, &mut QueueBench { queues }, file, bytes)
    }
}

/// The queues of a case, which are empty at first.
#[derive(Drop)]
struct QueueBench {
    queues: Queues,
}

impl Bench for QueueBench {
    /// What the call of an item answers.
    fn found(&mut self, alloc: Global, item: &Item) -> Result<Option<Vec<u8>>, LineEnd> {
        let mut text = Text::new(alloc);
        perform(alloc, &mut self.queues, item, &mut text)?;
        Ok(Some(text.into_bytes()))
    }
}

//! The acceptance program of the protocol: it plays the scenes of a folder, event by event, and prints a line a case.
//!
//! Beside scenes it asks logs made by hand what they tell, and looks at the exactly-once law on random walks, by the second
//! computation of `plain_law`. Nothing is proved of the program but that it is safe and ends; `case_form` says by contract
//! how the verdicts that are printed and the exit status follow from what was found. The form of a case file is in
//! `docs/reference/scenes.md`.
#![tactic(auto)]

mod bench;
mod choosing;
mod events;
mod fault;
mod given;
mod judging;
mod laws;
mod listed_rules;
mod listed_tables;
mod listing;
mod records;
mod scene;
mod units;
mod walks;
mod words;

use ale_base::OutOfMemory;
use bench::SceneBench;
use case_form::{Outcome, Suite, Texts, outcome_on, run_folder};
use std::alloc::Global;
use std::io;
use std::process::ExitCode;

/// The status is 0 where all cases of the folder that the first word names pass, and else 1.
fn main(rt: HostRuntime) -> io::Result<ExitCode> {
    run_folder(&rt, &ProtocolScenes)
}

/// Scenes of the protocol.
struct ProtocolScenes;

impl Suite for ProtocolScenes {
    ghost use Rattle.case_form.specs.Answered.{IsAnswered};
    ghost use Rattle.protocol_scenes.specs.Bench.{sets_up};

    ghost comes_out = { λ _ _ file bytes outcome. IsAnswered sets_up (λ _ _. Unit {0}) file bytes outcome };

    fn outcome(
        &self,
        alloc: Global,
        texts: &Texts,
        file: &str,
        bytes: &[u8],
    ) -> Result<Outcome, OutOfMemory> {
        let _ = texts;
        let mut bench = SceneBench::new(alloc);
        let outcome = outcome_on(alloc, &mut bench, file, bytes);
        drop(bench);
        outcome
    }
}

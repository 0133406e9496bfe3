//! The acceptance program: it runs the case files of a folder through the top call, with files, a sink, volumes and a clock in
//! memory, and prints a line a case.
//!
//! Contract: each step of a case is the judgement of one of its runs, in order. A run is made from each of its starts, and there
//! once for each choice of the calls that fail. Each time it had an ending by its words, files, volumes and clock, and the step
//! fits exactly where each time its status and its text are those that the case gives and, where works are to meet at its gate, a
//! text is `all met`, and, where the logs that it left are judged, what is told of them is what the case gives and, where it says
//! so, that all units are ended. That these texts are what the gate and the logs tell, no contract says, nor which reads and writes
//! fail. The first run starts on empty volumes; each other one on what each run of the one before left, on what crashes of it leave,
//! or anew; and before it volumes are made to hold what the case says (`specs/`: `Judged`, `Starts`, `Held`). `case_form` says by
//! contract how the verdicts that are printed and the exit status follow from these steps.
//! The form of a case file is in `docs/reference/cases.md`.
#![tactic(auto)]

mod begun;
mod case;
mod compared;
mod failing;
mod held;
mod holding;
mod law;
mod lines;
mod performing;
mod random;
mod reader;
mod records;
mod rules;
mod starts;
mod suite;
mod tried;

use case::Case;
use case_form::run_folder;
use std::io;
use std::process::ExitCode;
use suite::{WorkedCases, carry_out};

/// The status is 0 where all cases of the folder that the first word names pass, and else 1.
fn main(rt: HostRuntime) -> io::Result<ExitCode> {
    let alloc = rt.alloc();
    let suite = WorkedCases {
        carry_out: Box::new(alloc, move |case: Case| carry_out(&rt, alloc, case))?,
    };
    run_folder(&rt, &suite)
}

//! The acceptance program of what is looked up in distribution models, and of which model may replace another: it runs the case
//! files of a folder and prints a line a case. How a text is read as a model is shown by runs of the program.
//!
//! Contract: that of `case_form` on the verdict. Beyond that nothing is proved but that it is safe and ends. The items of
//! these cases are in `docs/reference/model_cases.md`.
#![tactic(auto)]

mod bench;
mod growth;
mod lookups;
mod rules;
mod suite;

use case_form::run_folder;
use std::io;
use std::process::ExitCode;
use suite::ModelCases;

fn main(rt: HostRuntime) -> io::Result<ExitCode> {
    run_folder(&rt, &ModelCases)
}

//! The acceptance program of what a row of a model sends: it runs the case files of a folder and prints a line a case. What a whole
//! log sends is shown by runs of the program.
//!
//! Contract: that of `case_form` on the verdict. Beyond that nothing is proved but that it is safe and ends. The items of
//! these cases are in `docs/reference/filters.md` and `docs/reference/distribution.md`.
#![tactic(auto)]

mod bench;
mod master;
mod rules;
mod sending;
mod suite;
mod telling;

use case_form::run_folder;
use std::io;
use std::process::ExitCode;
use suite::OutboundCases;

fn main(rt: HostRuntime) -> io::Result<ExitCode> {
    run_folder(&rt, &OutboundCases)
}

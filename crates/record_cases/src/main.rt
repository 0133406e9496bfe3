//! The acceptance program of records: it runs the case files of a folder and prints a line a case.
//!
//! Contract: that of `case_form` on the verdict. Beyond that nothing is proved but that it is safe and ends. The items of
//! these cases are in `docs/reference/record_cases.md`.
#![tactic(auto)]

mod records;
mod suite;

use case_form::run_folder;
use std::io;
use std::process::ExitCode;
use suite::Records;

fn main(rt: HostRuntime) -> io::Result<ExitCode> {
    run_folder(&rt, &Records)
}

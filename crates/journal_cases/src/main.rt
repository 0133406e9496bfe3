//! The acceptance program of volumes and journals: it runs the case files of a folder and prints a line a case.
//!
//! Contract: that of `case_form` on the verdict. Beyond that nothing is proved but that it is safe and ends. The items of
//! these cases are in `docs/reference/journal.md`.
#![tactic(auto)]

mod appends;
mod crashes;
mod disk;
mod entries;
mod suite;
mod told;
mod volumes;
mod words;

use case_form::run_folder;
use std::io;
use std::process::ExitCode;
use suite::Journals;

fn main(rt: HostRuntime) -> io::Result<ExitCode> {
    run_folder(&rt, &Journals)
}

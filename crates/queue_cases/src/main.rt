//! The acceptance program of queues: it runs the case files of a folder, call by call, and prints a line a case.
//!
//! Each call is made on queues as a system runs them. Nothing is proved of the program but that it is safe and ends. The
//! items of these cases are in `docs/reference/queues.md`.
#![tactic(auto)]

mod answers;
mod calls;
mod suite;
mod words;

use case_form::run_folder;
use std::io;
use std::process::ExitCode;
use suite::QueueCases;

/// The status is 0 where all cases of the folder that the first word names pass, and else 1.
fn main(rt: HostRuntime) -> io::Result<ExitCode> {
    run_folder(&rt, &QueueCases)
}

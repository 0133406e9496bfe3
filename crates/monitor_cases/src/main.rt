//! The acceptance program of totals that are read without a lock: it runs the case files of a folder and prints a line a case.
//!
//! An item stores totals and tells them to a reader. Nothing is proved of the program but that it is safe. The items of these cases are in
//! `docs/reference/monitor.md`.
#![tactic(auto)]

mod asked;
mod rules;
mod suite;
mod telling;

use asked::Stored;
use case_form::run_folder;
use std::io;
use std::process::ExitCode;
use suite::MonitorCases;
use telling::told;

/// The status is 0 where all cases of the folder that the first word names pass, and else 1.
fn main(rt: HostRuntime) -> io::Result<ExitCode> {
    let alloc = rt.alloc();
    let suite = MonitorCases {
        scenes: Box::new(alloc, move |stored: Stored| told(&rt, alloc, stored))?,
    };
    run_folder(&rt, &suite)
}

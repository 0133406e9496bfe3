//! The acceptance program of the form itself: cases that fail on purpose, so that it is shown how each failure is told and
//! that the status is then 1.
//!
//! An item `finds TEXT` finds that text, and `broken N RULE` has a block that is no case. Nothing is proved here but that
//! the program is safe and ends; its verdicts are those of `case_form`.
#![tactic(auto)]

mod suite;

use case_form::run_folder;
use std::io;
use std::process::ExitCode;
use suite::Echoes;

/// The status is 0 where all cases of the folder that the first word names pass, and else 1.
fn main(rt: HostRuntime) -> io::Result<ExitCode> {
    run_folder(&rt, &Echoes)
}

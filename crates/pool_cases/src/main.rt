//! The acceptance program of the pool of workers: it runs the case files of a folder and prints a line a case.
//!
//! Each item lets a pool do the works of a fake desk, which counts what is done to each of its works. Nothing is proved of
//! the program but that it is safe, and that its desk keeps the rules of desks. The items of these cases are in
//! `docs/reference/pool.md`.
#![tactic(auto)]

mod desk;
mod rules;
mod run;
mod scene;
mod suite;

use case_form::run_folder;
use run::Run;
use scene::found;
use std::io;
use std::process::ExitCode;
use suite::PoolCases;

/// The status is 0 where all cases of the folder that the first word names pass, and else 1.
fn main(rt: HostRuntime) -> io::Result<ExitCode> {
    let alloc = rt.alloc();
    let suite = PoolCases {
        pools: Box::new(alloc, move |run: Run| found(&rt, alloc, run))?,
    };
    run_folder(&rt, &suite)
}

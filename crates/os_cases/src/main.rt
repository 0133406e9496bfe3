//! The acceptance program of the outside as the operating system has it: it runs the case files of a folder and prints a line
//! a case.
//!
//! Contract: that of `case_form` on the verdict; beyond it nothing is proved but that the program is safe and ends. It makes
//! and removes files of the current folder. The items of these cases are in `docs/reference/cases.md`.
#![tactic(auto)]

mod call_end;
mod names;
mod outside;
mod paths;
mod pieces;
mod rules;
mod suite;
mod text;
mod volumes;

use ale_os::{DirFiles, FileVolumes};
use case_form::{Item, run_folder};
use outside::Adapters;
use std::io;
use std::process::ExitCode;
use suite::{OsCases, steps_of};

/// What the first byte of a volume of more than one byte may be in these cases.
const FIRST_BYTES: [u8; 2] = [b'O', 0];

/// The status is 0 where all cases of the folder that the first word names pass, and else 1.
fn main(rt: HostRuntime) -> io::Result<ExitCode> {
    let alloc = rt.alloc();
    let suite = OsCases {
        carry_out: Box::new(alloc, move |items: Vec<Item>| {
            let adapters = Adapters {
                files: DirFiles::new(&rt, alloc),
                volumes: FileVolumes::new(&rt, alloc, FIRST_BYTES),
                later: Some(FileVolumes::new(&rt, alloc, FIRST_BYTES)),
            };
            steps_of(&rt, alloc, adapters, items.as_slice())
        })?,
    };
    run_folder(&rt, &suite)
}

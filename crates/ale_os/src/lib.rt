//! The outside as the operating system has it: its files, standard output, volumes that are files, and its clock.
//!
//! Contract: each adapter meets the trait of `ale_io` or `ale_volumes` that it is for, and so counts faults as that says. None
//! tells what it holds or gives, so nothing is claimed of a real disk, of standard output or of the system's clock; what they
//! do there is tried by cases.
#![tactic(auto)]

mod dir_files;
mod failure;
mod file_volumes;
mod journal_folder;
mod open_file;
mod open_volumes;
mod shown;
mod std_sink;
mod volume_file;
mod wall_clock;

pub use dir_files::DirFiles;
pub use failure::{JournalFailure, ReadFailure};
pub use file_volumes::FileVolumes;
pub use std_sink::StdSink;
pub use wall_clock::WallClock;

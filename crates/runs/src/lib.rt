//! Runs of scripts: each command is carried out by the systems of a landscape, and its text is put.
//!
//! Contract: a run is a list of turns; in each a command does what it asks for (`Does`), and its reply with the lengths of the logs, and
//! what it lists, is put. The run ends behind its last command, or earlier by a write that failed, by want of memory, or by an
//! `open` that finds another log than was kept; what systems are down by stands in what it left. Where nothing holds units up, each
//! went its whole way behind each drain (`IsComplete`). The definitions are in `specs/`: `Does` (what a command does), `Turns` and `Run` (why
//! a run ends), `Complete` (nothing holds units up), `Text` (what is printed).
#![tactic(auto)]

mod answered;
mod crew;
mod halt;
mod inputs;
mod lengths;
mod performing;
mod report;
mod run_end;
mod stage;
mod turns;

pub use answered::Answered;
pub use crew::Crew;
pub use halt::Halt;
pub use inputs::Inputs;
pub use run_end::RunEnd;
pub use stage::Stage;
pub use turns::{Ran, run_script};

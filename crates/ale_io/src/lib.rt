//! The outside that the program reads and writes: files, a sink and a clock, as traits, and each of them in memory; and the
//! gate that workers pass.
//!
//! Contract: a call says what it read or wrote where the implementation tells its contents, and it answers `Failed` or
//! `SinkFailed` only where the implementation's count of faults rises in that call; a clock's call says which moment it
//! gave, where the clock tells that. The definitions are in `specs/`: `Told` (what is known of a file), `Piece` (what is
//! read of it in pieces), `Written` (what a sink holds after a call), `FaultCount` (what a call does to a count of
//! faults), `Folder` (files in memory), `Moments` (what a clock in memory gives).
#![tactic(auto)]

mod calls;
mod clock;
mod file_end;
mod files;
mod gate;
mod list_clock;
mod map_files;
mod sink;
mod vec_sink;

pub use calls::Calls;
pub use clock::Clock;
pub use file_end::FileEnd;
pub use files::Files;
pub use gate::{Gate, OpenGate};
pub use list_clock::ListClock;
pub use map_files::{MapFiles, StoredFile};
pub use sink::{Sink, SinkFailed};
pub use vec_sink::VecSink;

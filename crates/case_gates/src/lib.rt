//! Gates for cases of workers: one that counts the works that pass, and one at which works wait for each other.
//!
//! Contract: none but safety. A gate is shared by threads and made of atomics, and no contract sees what those hold: each call
//! is proved to be safe and to end, and what it counts, and how a meeting is told, is shown by stored output alone.
#![tactic(auto)]

mod counting_gate;
mod meeting;
mod meeting_gate;

pub use counting_gate::CountingGate;
pub use meeting::Meeting;
pub use meeting_gate::MeetingGate;

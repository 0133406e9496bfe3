//! A gate at which works wait for each other.

use crate::Meeting;
use ale_base::{SystemNo, Tid};
use ale_io::Gate;

/// A gate at which each work attends a meeting. At one of nobody each work passes at once.
#[derive(Drop)]
pub struct MeetingGate {
    /// Where the works wait.
    pub meeting: Meeting,
}

impl MeetingGate {
    /// A gate at which each work waits until so many have come.
    pub fn of(expected: u64) -> MeetingGate {
        MeetingGate {
            meeting: Meeting::of(expected),
        }
    }
}

impl Gate for MeetingGate {
    fn pass(&self, _system: SystemNo, _tid: Tid) {
        self.meeting.attend();
    }
}

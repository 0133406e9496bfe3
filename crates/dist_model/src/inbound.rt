//! Profiles of what is received.

use ale_base::{Items, SystemNo};

/// When a document that was received is posted.
#[derive(Clone, Copy, PartialEq, Eq)]
pub enum InboundMode {
    /// With its unit.
    Immediate,
    /// Later, one by one.
    Background,
}

/// How a system posts what it receives of a message type from another.
#[derive(Drop)]
pub struct Inbound {
    /// The system that receives.
    pub receiver: SystemNo,
    /// The system that sends, another one.
    pub sender: SystemNo,
    /// The name of the message type, or of the reduced one.
    pub message: Items<u8>,
    /// When documents are posted.
    pub mode: InboundMode,
}

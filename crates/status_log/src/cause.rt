//! Why journals are refused as they are opened.

/// Why the journal of a system is refused at opening. Beside the cause its place is told: the place of a byte where it is
/// damaged, else the number of a record, from 1; of a log that was changed 0 where it is damaged.
#[derive(Clone, Copy, PartialEq, Eq)]
pub enum Cause {
    /// The volume stands for no log.
    Damaged,
    /// The record is not read.
    Unread,
    /// The log is that of another system: the one that it names, and the one that was expected.
    System(u8, u8),
    /// The log has another model; the texts differ at this byte first.
    Model(u64),
    /// The record may not follow those before it.
    Illegal,
    /// The unit that was received was not committed.
    OnceB,
    /// The units that were received in a queue are not those that were committed first.
    OnceC,
    /// The unit that is done was not received.
    OnceE,
    /// The unit that was forgotten is not done.
    OnceF,
    /// The unit that has ended was not forgotten.
    OnceG,
    /// An `open` found another log than the one that was kept.
    Changed,
}

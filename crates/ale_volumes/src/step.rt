//! A step of the record of volumes in memory.

use ale_base::Items;

/// A call that changed what volumes in memory hold, or what a crash may leave of them.
#[derive(Drop)]
pub enum Step {
    /// Bytes were written to a volume from a place on.
    Write {
        /// The volume's number.
        volume: u8,
        /// The place of the first byte.
        at: u64,
        /// All the bytes of the call.
        bytes: Items<u8>,
        /// Whether the call failed, and a read gives a part of them.
        failed: bool,
    },
    /// A volume was synced.
    Sync {
        /// The volume's number.
        volume: u8,
    },
}

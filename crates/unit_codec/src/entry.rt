//! Entries of a log.

use std::alloc::AllocError;
use unit_core::Record;

/// A record of a log, with the moment at which it was written, or without one: a moment counts the seconds since
/// 1970-01-01 UTC.
#[derive(Drop)]
pub struct Entry {
    /// The moment.
    pub moment: Option<u64>,
    /// The record.
    pub what: Record,
}

impl Clone for Entry {
    ghost use Rattle.std.specs.Prelude.{◌≡◌};

    ghost is_clone = { λ entry copy. copy ≡ entry };

    fn clone(&self) -> Result<Entry, AllocError> {
        Ok(Entry {
            moment: self.moment,
            what: self.what.clone()?,
        })
    }
}

//! A status with the record that gave it.

ghost use Rattle.std.specs.Prelude.{◌≡◌, ◌^◌, suc, IfOk, OnErr};

use crate::Status;
use ale_base::OutOfMemory;

/// A status that a document got, and which record of the log gave it.
#[derive(Clone, Copy, PartialEq, Eq)]
pub struct StatusAt {
    /// The status.
    pub status: Status,
    /// The number of the record in the log of its system, from 1.
    pub number: u64,
}

/// The number of the record after so many. The numbers of records end where memory does: an `Err` comes at the greatest number of
/// 64 bits alone.
pub fn number_after(records: u64) -> Result<u64, OutOfMemory>
    ensures ok { IfOk result (λ number. number ≡ suc records) }
    ensures err { OnErr result (suc records ≡ 2 ^ 64) }
{
    match records.checked_add(1) {
        None => Err(OutOfMemory),
        Some(number) => Ok(number),
    }
}

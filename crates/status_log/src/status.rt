//! The status of a document.

/// A status that a document got. The codes are SAP's: 01 generated, 03 passed to the port, 12 dispatched, 29 error in the
/// ALE service, 30 ready for dispatch, 50 added, 51 not posted, 53 posted, 56 with errors, 62 passed to the application,
/// 64 ready for the application. Source: SAP Library, IDoc statuses.
#[derive(Clone, Copy, PartialEq, Eq)]
pub struct Status {
    /// The code, below 100.
    pub code: u8,
    /// Why a document was not posted: 1 where it has no key, 2 where a field that must be filled is blank, 3 where the
    /// object is there already. It is 0 where the code is not 51.
    pub reason: u8,
}

impl Status {
    ghost use Rattle.std.specs.Prelude.{◌≡◌};
    ghost use Rattle.status_log.specs.Statuses.{plain};

    /// A status that has no reason.
    pub fn plain(code: u8) -> Status
        ensures { result ≡ plain code }
    {
        Status { code, reason: 0 }
    }
}

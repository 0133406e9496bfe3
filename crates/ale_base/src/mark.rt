//! Why a unit waits.

/// Why a unit of work waits until it is retried.
#[derive(Clone, Copy, Debug, PartialEq, Eq)]
pub enum Mark {
    /// The call got no answer: the wire lost the request or the reply, or the receiver was down.
    Cpicerr,
    /// The receiver does not offer the function.
    Sysfail,
}

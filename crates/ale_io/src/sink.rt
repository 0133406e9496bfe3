//! The trait of what takes the program's text.

ghost use Rattle.std.specs.Prelude.{ℕ, List, Option, IsOk, IsErr, OnOk, OnErr};
ghost use Rattle.std.specs.Io.KnownBytes.{Appends};
ghost use Rattle.ale_io.specs.Written.{AppendsFront};
ghost use Rattle.ale_io.specs.FaultCount.{IsCounted};

use thiserror::Error;

/// A sink did not take all the bytes of a call.
#[derive(Clone, Copy, Debug, PartialEq, Eq, Error)]
#[error("write fault")]
pub struct SinkFailed;

/// Where the program's text goes.
pub trait Sink {
    // The bytes that it holds, or None where the implementation does not tell.
    ghost contents: { Self → Option (List ℕ) };

    // How many calls have failed.
    ghost faults: { Self → ℕ };

    /// Appends the bytes. After an `Err`, which comes only where this call is a fault, some of them may have been
    /// appended, from the first on.
    fn put(&mut self, bytes: &[u8]) -> Result<(), SinkFailed>
        ensures ok { OnOk result (Appends (contents self.old) (contents self.new) bytes.now) }
        ensures err { OnErr result (AppendsFront (contents self.old) (contents self.new) bytes.now) }
        ensures faults { IsCounted (IsErr result) (IsOk result) (faults self.old) (faults self.new) };
}

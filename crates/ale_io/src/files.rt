//! The trait of the files that the program may read.

ghost use Rattle.std.specs.Prelude.{◌≡◌, ◌≢◌, ℕ, List, [], ◌++◌, ◌<◌, ◌≤◌, length, Err, IsOk, OnOk, IfOk, OnErr, IsErrOf};
ghost use Rattle.ale_io.specs.Told.{Told, MayHold, MayLack};
ghost use Rattle.ale_io.specs.Piece.{AppendsPiece};
ghost use Rattle.ale_io.specs.FaultCount.{IsCounted};

use crate::FileEnd;

/// The files that the program may read, by name.
pub trait Files {
    // What the implementation tells of the file with this name.
    ghost told: { Self → List ℕ → Told };

    // How many calls have failed.
    ghost faults: { Self → ℕ };

    /// Appends the bytes of a file of at most `limit` bytes.
    ///
    /// `Missing` comes where no file has the name, `TooLong` where the file is longer than the limit, and `Failed`
    /// only where this call is a fault. A read with no name is one. After an `Err` the vector is as before.
    fn read_file(&mut self, name: &str, limit: usize, into: &mut Vec<u8>) -> Result<(), FileEnd>
        ensures read { OnOk result ((bytes : List ℕ) × MayHold (told self.old name.now) bytes
            × (length bytes ≤ limit) × (into.new.items ≡ into.old.items ++ bytes)) }
        ensures missing { IsErrOf result FileEnd.Missing → MayLack (told self.old name.now) }
        ensures too_long { IsErrOf result FileEnd.TooLong →
            (bytes : List ℕ) × MayHold (told self.old name.now) bytes × (limit < length bytes) }
        ensures err { OnErr result (into.new.items ≡ into.old.items) }
        ensures no_name { name.now ≡ [] → IsErrOf result FileEnd.Failed }
        ensures kept { (other : List ℕ) → told self.new other ≡ told self.old other }
        ensures faults { IsCounted (IsErrOf result FileEnd.Failed) (IsOk result) (faults self.old) (faults self.new) };

    /// Appends a piece of a file: at most `most` bytes from the place `at` on, counted from 0. The answer is their
    /// number, which is 0 exactly where the file has no byte at that place.
    ///
    /// `Missing` and `Failed` come as in `read_file`, and `TooLong` never. After an `Err` the vector is as before.
    fn read_piece(
        &mut self,
        name: &str,
        at: u64,
        most: usize,
        into: &mut Vec<u8>,
    ) -> Result<usize, FileEnd>
        requires some { 1 ≤ most }
        ensures read { IfOk result (AppendsPiece (told self.old name.now) at most into.old.items into.new.items) }
        ensures missing { IsErrOf result FileEnd.Missing → MayLack (told self.old name.now) }
        ensures not_too_long { result ≢ Err FileEnd.TooLong }
        ensures err { OnErr result (into.new.items ≡ into.old.items) }
        ensures no_name { name.now ≡ [] → IsErrOf result FileEnd.Failed }
        ensures kept { (other : List ℕ) → told self.new other ≡ told self.old other }
        ensures faults { IsCounted (IsErrOf result FileEnd.Failed) (IsOk result) (faults self.old) (faults self.new) };
}

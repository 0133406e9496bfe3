//! Files in memory.

ghost use Rattle.std.specs.Prelude.{◌≡◌, take, drop};

use crate::{Calls, FileEnd, Files};
use ale_base::Items;

/// A file in memory.
#[derive(Drop)]
pub struct StoredFile {
    /// The bytes of its name.
    pub name: Items<u8>,
    /// What it holds.
    pub bytes: Items<u8>,
}

/// Files in memory, of which chosen calls fail. Of several files with one name the first counts.
#[derive(Drop)]
pub struct MapFiles {
    /// The files. Those with no name can't be read.
    pub files: Items<StoredFile>,
    /// The calls of `read_file` and `read_piece`.
    pub calls: Calls,
}

impl MapFiles {
    ghost use Rattle.std.specs.Prelude.{◌≡◌, ◌↔◌, ◌⊎◌, [], ◌+◌, ◌-◌, ◌^◌, min, find, Contains, IsTrue, false};
    ghost use Rattle.std.specs.Option.{option_copied};
    ghost use Rattle.ale_base.specs.Text.{is_text};
    ghost use Rattle.ale_io.specs.FaultCount.{IsCounted, CountsOne};

    /// Counts a call on the file of this name. True exactly where it is to fail, or there is no name, and then it is a
    /// fault.
    fn next_fails(&mut self, name: &str) -> bool
        ensures chosen { IsTrue result ↔ (Contains self.old.calls.failing self.new.calls.made ⊎ (name.now ≡ [])) }
        ensures made { self.new.calls.made ≡ min (self.old.calls.made + 1) (2 ^ 64 - 1) }
        ensures failing { self.new.calls.failing ≡ self.old.calls.failing }
        ensures files { self.new.files ≡ self.old.files }
        ensures one_fault { CountsOne (IsTrue result) self.old.calls.faults self.new.calls.faults }
        ensures faults { IsCounted (IsTrue result) (result ≡ false) self.old.calls.faults self.new.calls.faults }
    {
        if self.calls.next_fails() {
            return true;
        }
        let has_no_name = name.is_empty();
        if has_no_name {
            self.calls.fault();
        }
        has_no_name
    }

    /// The first file of this name.
    fn stored(&self, name: &str) -> Option<&StoredFile>
        ensures { option_copied result ≡ find (λ stored. is_text stored.name name.now) self.now.files }
    {
        self.files
            .iter()
            .find(|stored| stored.name.as_slice() == name.as_bytes())
    }
}

impl Files for MapFiles {
    ghost use Rattle.std.specs.Prelude.{◌≡◌, ◌↔◌, ◌⊎◌, ℕ, List, [], ◌+◌, ◌-◌, ◌^◌, ◌++◌, ◌<◌, ◌≤◌, ◌≢◌, length, take, drop, min, Contains, Err, IsOk, OnOk, IfOk, OnErr, IsErrOf, vec_len, vec_capacity};
    ghost use Rattle.ale_io.specs.Told.{MayHold, MayLack};
    ghost use Rattle.ale_io.specs.Piece.{AppendsPiece};
    ghost use Rattle.ale_io.specs.FaultCount.{IsCounted, CountsOne};
    ghost use Rattle.ale_io.specs.Folder.{told_of};

    ghost told = { λ folder name. told_of folder.files name };

    ghost faults = { λ folder. folder.calls.faults };

    fn read_file(&mut self, name: &str, limit: usize, into: &mut Vec<u8>) -> Result<(), FileEnd>
        ensures read { OnOk result ((bytes : List ℕ) × MayHold (told_of self.old.files name.now) bytes
            × (length bytes ≤ limit) × (into.new.items ≡ into.old.items ++ bytes)) }
        ensures missing { IsErrOf result FileEnd.Missing → MayLack (told_of self.old.files name.now) }
        ensures too_long { IsErrOf result FileEnd.TooLong →
            (bytes : List ℕ) × MayHold (told_of self.old.files name.now) bytes × (limit < length bytes) }
        ensures err { OnErr result (into.new.items ≡ into.old.items) }
        ensures no_name { name.now ≡ [] → IsErrOf result FileEnd.Failed }
        ensures kept { (other : List ℕ) → told_of self.new.files other ≡ told_of self.old.files other }
        ensures faults { IsCounted (IsErrOf result FileEnd.Failed) (IsOk result) self.old.calls.faults self.new.calls.faults }

        // It fails exactly at the calls that are to fail, and with no name, and counts one fault there and none else.
        ensures chosen { IsErrOf result FileEnd.Failed ↔ (Contains self.old.calls.failing self.new.calls.made ⊎ (name.now ≡ [])) }
        ensures one_fault { CountsOne (IsErrOf result FileEnd.Failed) self.old.calls.faults self.new.calls.faults }
        // Memory runs out only where the vector has no room for the file.
        ensures full { IsErrOf result FileEnd.OutOfMemory → (bytes : List ℕ) × MayHold (told_of self.old.files name.now) bytes
            × (vec_capacity into.old < vec_len into.old + length bytes) }
        ensures made { self.new.calls.made ≡ min (self.old.calls.made + 1) (2 ^ 64 - 1) }
        ensures failing { self.new.calls.failing ≡ self.old.calls.failing }
    {
        if self.next_fails(name) {
            return Err(FileEnd::Failed);
        }
        let Some(stored) = self.stored(name) else {
            return Err(FileEnd::Missing);
        };
        if stored.bytes.len() > limit {
            return Err(FileEnd::TooLong);
        }
        match into.extend_from_slice(stored.bytes.as_slice()) {
            Ok(()) => Ok(()),
            Err(_) => Err(FileEnd::OutOfMemory),
        }
    }

    fn read_piece(
        &mut self,
        name: &str,
        at: u64,
        most: usize,
        into: &mut Vec<u8>,
    ) -> Result<usize, FileEnd>
        requires some { 1 ≤ most }
        ensures read { IfOk result (AppendsPiece (told_of self.old.files name.now) at most into.old.items into.new.items) }
        ensures missing { IsErrOf result FileEnd.Missing → MayLack (told_of self.old.files name.now) }
        ensures not_too_long { result ≢ Err FileEnd.TooLong }
        ensures err { OnErr result (into.new.items ≡ into.old.items) }
        ensures no_name { name.now ≡ [] → IsErrOf result FileEnd.Failed }
        ensures kept { (other : List ℕ) → told_of self.new.files other ≡ told_of self.old.files other }
        ensures faults { IsCounted (IsErrOf result FileEnd.Failed) (IsOk result) self.old.calls.faults self.new.calls.faults }

        // The piece is as long as the file and `most` allow.
        ensures whole { OnOk result ((bytes : List ℕ) × MayHold (told_of self.old.files name.now) bytes
            × (into.new.items ≡ into.old.items ++ take most (drop at bytes))) }
        // It fails exactly at the calls that are to fail, and with no name, and counts one fault there and none else.
        ensures chosen { IsErrOf result FileEnd.Failed ↔ (Contains self.old.calls.failing self.new.calls.made ⊎ (name.now ≡ [])) }
        ensures one_fault { CountsOne (IsErrOf result FileEnd.Failed) self.old.calls.faults self.new.calls.faults }
        // Memory runs out only where the vector has no room for the piece.
        ensures full { IsErrOf result FileEnd.OutOfMemory → (bytes : List ℕ) × MayHold (told_of self.old.files name.now) bytes
            × (vec_capacity into.old < vec_len into.old + length (take most (drop at bytes))) }
        ensures made { self.new.calls.made ≡ min (self.old.calls.made + 1) (2 ^ 64 - 1) }
        ensures failing { self.new.calls.failing ≡ self.old.calls.failing }
    {
        if self.next_fails(name) {
            return Err(FileEnd::Failed);
        }
        let Some(stored) = self.stored(name) else {
            return Err(FileEnd::Missing);
        };
        let piece = piece_of(stored.bytes.as_slice(), at, most);
        match into.extend_from_slice(piece) {
            Ok(()) => Ok(piece.len()),
            Err(_) => Err(FileEnd::OutOfMemory),
        }
    }
}

/// The bytes from the place `at` on, `most` of them at most.
fn piece_of(bytes: &[u8], at: u64, most: usize) -> &[u8]
    ensures { result.now ≡ take most (drop at bytes.now) }
{
    let rest = &bytes[bytes.len().min(at as usize)..];
    &rest[..most.min(rest.len())]
}

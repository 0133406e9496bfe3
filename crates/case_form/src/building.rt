//! A text that is made piece by piece.

ghost use Rattle.std.specs.Prelude.{◌≡◌, ◌++◌, [], ◌∷◌, OnOk};
ghost use Rattle.std.specs.Fmt.{decimal};

use ale_base::OutOfMemory;
use std::alloc::Global;
use std::marker::Model;

/// A text that is made piece by piece, line by line. Contracts see its bytes.
#[derive(Drop)]
pub struct Text {
    alloc: Global,
    bytes: Vec<u8>,
}

impl Model for Text {
    ghost use Rattle.std.specs.Prelude.{ℕ, List};

    ghost Value = { List ℕ };

    ghost view = { λ text. text.bytes.items };
}

impl Text {
    ghost use Rattle.std.specs.Prelude.{◌≡◌, ◌↔◌, ◌++◌, [], ◌∷◌, IsTrue, OnOk};
    ghost use Rattle.std.specs.Fmt.{decimal};

    /// No text.
    pub fn new(alloc: Global) -> Text
        ensures { result ≡ [] }
    {
        Text {
            alloc,
            bytes: Vec::new(alloc),
        }
    }

    /// The bytes of the text.
    pub fn into_bytes(self) -> Vec<u8>
        ensures { result.items ≡ self }
    {
        let Text { bytes, .. } = self;
        bytes
    }

    /// The bytes of the text.
    pub fn as_bytes(&self) -> &[u8]
        ensures { result.now ≡ self.now }
    {
        self.bytes.as_slice()
    }

    /// Whether nothing was put.
    pub fn is_empty(&self) -> bool
        ensures { IsTrue result ↔ (self.now ≡ []) }
    {
        self.bytes.is_empty()
    }

    /// Puts bytes.
    pub fn put(&mut self, bytes: &[u8]) -> Result<(), OutOfMemory>
        ensures { OnOk result (self.new ≡ self.old ++ bytes.now) }
    {
        self.bytes.extend_from_slice(bytes)?;
        Ok(())
    }

    /// Puts a whole line.
    pub fn put_line(&mut self, line: &[u8]) -> Result<(), OutOfMemory>
        ensures { OnOk result (self.new ≡ (self.old ++ line.now) ++ 10 ∷ []) }
    {
        self.put(line)?;
        self.end_line()
    }

    /// Puts the end of a line.
    pub fn end_line(&mut self) -> Result<(), OutOfMemory>
        ensures { OnOk result (self.new ≡ self.old ++ 10 ∷ []) }
    {
        self.put(b"\n")
    }

    /// Puts a blank and a word.
    pub fn put_word(&mut self, word: &[u8]) -> Result<(), OutOfMemory>
        ensures { OnOk result (self.new ≡ (self.old ++ 32 ∷ []) ++ word.now) }
    {
        self.put(b" ")?;
        self.put(word)
    }

    /// Puts a number in decimal digits.
    pub fn put_number(&mut self, number: u64) -> Result<(), OutOfMemory>
        ensures { OnOk result (self.new ≡ self.old ++ decimal number) }
    {
        let digits = format!(in self.alloc; "{number}")?;
        self.put(digits.as_bytes())
    }
}

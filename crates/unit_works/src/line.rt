//! The letters that are left of one unit.

ghost use Rattle.std.specs.Prelude.{◌≡◌};

use crate::Letter;
use crate::letter::letter_of;
use ale_base::OutOfMemory;
use std::alloc::Global;
use std::collections::VecDeque;
use std::marker::Model;

/// The letters that are left of a unit, the next one first. Contracts see the list.
#[derive(Drop)]
pub(crate) struct Line {
    letters: VecDeque<Letter>,
}

impl Model for Line {
    ghost use Rattle.std.specs.Prelude.{List};
    ghost use Rattle.unit_works.specs.declared.letter.Letter.{Letter};

    ghost Value = { List Letter };

    ghost view = { λ line. line.letters.items };
}

impl Line {
    ghost use Rattle.std.specs.Prelude.{◌≡◌, [], ◌∷◌, ◌++◌, OnOk, OnErr, IfOk};
    ghost use Rattle.unit_works.specs.Wires.{letters_said, next_letter, rest_letters};

    /// No letters. It takes no memory.
    pub(crate) fn new(alloc: Global) -> Line
        ensures { result ≡ [] }
    {
        Line {
            letters: VecDeque::new(alloc),
        }
    }

    /// A letter behind those that are left. After an `Err` nothing has changed.
    fn push(&mut self, letter: Letter) -> Result<(), OutOfMemory>
        ensures ok { OnOk result (self.new ≡ self.old ++ letter ∷ []) }
        ensures err { OnErr result (self.new ≡ self.old) }
    {
        self.letters.push_back(letter)?;
        Ok(())
    }

    /// The letters that bytes say, behind those that are left. After an `Err` some of them may be.
    pub(crate) fn append(&mut self, bytes: &[u8]) -> Result<(), OutOfMemory>
        ensures { OnOk result (self.new ≡ self.old ++ letters_said bytes.now) }
    {
        for byte in bytes {
            if let Some(letter) = letter_of(*byte) {
                self.push(letter)?;
            }
        }
        Ok(())
    }

    /// A copy.
    pub(crate) fn copied(&self) -> Result<Line, OutOfMemory>
        ensures { IfOk result (λ line. line ≡ self.now) }
    {
        Ok(Line {
            letters: self.letters.clone()?,
        })
    }

    /// Takes the next letter: all goes through where none is left. It takes no memory.
    pub(crate) fn take(&mut self) -> Letter
        ensures letter { result ≡ next_letter self.old }
        ensures rest { self.new ≡ rest_letters self.old }
    {
        match self.letters.pop_front() {
            Some(letter) => letter,
            None => Letter::Whole,
        }
    }
}

//! The letters that are left of each unit.

ghost use Rattle.std.specs.Prelude.{◌≡◌};

use crate::Letter;
use crate::line::Line;
use ale_base::{OutOfMemory, Tid};
use std::alloc::Global;
use std::collections::BTreeMap;
use std::marker::Model;

/// The letters that are left of each unit. Contracts see what is kept by the numbers of its id: `letters_left` says what it means.
/// Each call takes time as the logarithm of the number of units that have letters.
#[derive(Drop)]
pub struct Wires {
    alloc: Global,
    lines: BTreeMap<(u8, u32), Line>,
}

impl Model for Wires {
    ghost use Rattle.std.specs.Prelude.{ℕ, List};
    ghost use Rattle.unit_works.specs.declared.letter.Letter.{Letter};

    ghost Value = { List ((ℕ × ℕ) × List Letter) };

    ghost view = { λ wires. wires.lines.entries };
}

impl Wires {
    ghost use Rattle.std.specs.Prelude.{◌≡◌, [], IfOk, OnOk, OnErr};
    ghost use Rattle.ale_base.specs.Tid.{TidOf};
    ghost use Rattle.unit_works.specs.Wires.{letters_said, letters_left, next_letter, after_add, after_take};

    /// No unit has letters. It takes no memory.
    pub fn new(alloc: Global) -> Wires
        ensures { (tid : TidOf) → letters_left result tid ≡ [] }
    {
        Wires {
            alloc,
            lines: BTreeMap::new(alloc),
        }
    }

    /// Adds the letters that bytes say to those that are left of a unit, behind them. Bytes that say none are skipped. All other units
    /// keep theirs. After an `Err` nothing has changed.
    pub fn add(&mut self, tid: Tid, letters: &[u8]) -> Result<(), OutOfMemory>
        ensures ok { OnOk result ((other : TidOf) → letters_left self.new other ≡ after_add tid (letters_said letters.now) (letters_left self.old) other) }
        ensures err { OnErr result (self.new ≡ self.old) }
    {
        let mut line = self.line_of(tid)?;
        line.append(letters)?;
        self.lines.insert(number_of(tid), line)?;
        Ok(())
    }

    /// A copy of the letters that are left of a unit.
    fn line_of(&self, tid: Tid) -> Result<Line, OutOfMemory>
        ensures { IfOk result (λ line. line ≡ letters_left self.now tid) }
    {
        match self.lines.get(&number_of(tid)) {
            Some(line) => line.copied(),
            None => Ok(Line::new(self.alloc)),
        }
    }

    /// Takes the first letter that is left of a unit: all goes through where none is. It is left no longer. All other units keep theirs.
    /// It takes no memory.
    pub fn take(&mut self, tid: Tid) -> Letter
        ensures letter { result ≡ next_letter (letters_left self.old tid) }
        ensures rest { (other : TidOf) → letters_left self.new other ≡ after_take tid (letters_left self.old) other }
    {
        match self.lines.get_mut(&number_of(tid)) {
            Some(line) => line.take(),
            None => Letter::Whole,
        }
    }
}

/// The numbers of an id: its system and its unit.
fn number_of(tid: Tid) -> (u8, u32)
    ensures { result ≡ (tid.system, tid.unit) }
{
    (tid.system().get(), tid.unit())
}

//! The numbers of a unit's queues.

use ale_base::OutOfMemory;
use std::alloc::Global;
use std::marker::Model;

/// The numbers of the queues that a unit is in. Contracts see the list.
#[derive(Drop)]
pub(crate) struct Row {
    numbers: Vec<usize>,
}

impl Model for Row {
    ghost use Rattle.std.specs.Prelude.{ℕ, List};

    ghost Value = { List ℕ };

    ghost view = { λ row. row.numbers.items };
}

impl Row {
    ghost use Rattle.std.specs.Prelude.{◌≡◌, ◌-◌, ◌++◌, ◌∷◌, [], length, take, MatchOption, OnOk, OnErr};

    /// No numbers. It takes no memory.
    pub(crate) fn new(alloc: Global) -> Row
        ensures { result ≡ [] }
    {
        Row {
            numbers: Vec::new(alloc),
        }
    }

    /// How many there are.
    pub(crate) fn len(&self) -> usize
        ensures { result ≡ length self.now }
    {
        self.numbers.len()
    }

    /// The last number.
    pub(crate) fn last(&self) -> Option<usize>
        ensures { MatchOption result (self.now ≡ []) (λ q. self.now ≡ take (length self.now - 1) self.now ++ q ∷ []) }
    {
        match self.numbers.last() {
            Some(number) => Some(*number),
            None => None,
        }
    }

    /// The last number goes.
    pub(crate) fn cut(&mut self)
        ensures { self.new ≡ take (length self.old - 1) self.old }
    {
        let _gone = self.numbers.pop();
    }

    /// A number more at the end.
    pub(crate) fn push(&mut self, number: usize) -> Result<(), OutOfMemory>
        ensures ok { OnOk result (self.new ≡ self.old ++ number ∷ []) }
        ensures err { OnErr result (self.new ≡ self.old) }
    {
        self.numbers.push(number)?;
        Ok(())
    }

    /// The numbers.
    pub(crate) fn as_slice(&self) -> &[usize]
        ensures { result.now ≡ self.now }
    {
        self.numbers.as_slice()
    }
}

//! Tables of numbers, which know the place of each.

use ale_base::OutOfMemory;
use indexmap::IndexSet;
use std::alloc::Global;
use std::marker::Model;

/// Numbers in the order in which they were added, each once. Contracts see the list; a number is found in a time that
/// does not grow with it.
#[derive(Drop)]
pub struct Numbers {
    set: IndexSet<usize>,
}

impl Model for Numbers {
    ghost use Rattle.std.specs.Prelude.{ℕ, List};

    ghost Value = { List ℕ };

    ghost view = { λ numbers. numbers.set.keys };
}

impl Numbers {
    ghost use Rattle.std.specs.Prelude.{◌≡◌, ◌<◌, [], ◌∷◌, ◌++◌, not, true, false, length, nat_eq, position, IfOk, IfSome, OnErr};
    ghost use Rattle.std.specs.List.{list_any};

    /// No numbers. It takes no memory.
    pub fn new(alloc: Global) -> Numbers
        ensures { result ≡ [] }
    {
        Numbers {
            set: IndexSet::new(alloc),
        }
    }

    /// The place of a number, from 0. None exactly where it is not there.
    pub fn place(&self, number: usize) -> Option<usize>
        ensures place { result ≡ position (nat_eq number) self.now }
        ensures within { IfSome result (λ place. place < length self.now) }
    {
        self.set.get_index_of(&number)
    }

    /// Adds a number at the end unless it is there, and answers whether it is new. After an `Err` the numbers are as before.
    pub fn add(&mut self, number: usize) -> Result<bool, OutOfMemory>
        ensures new { IfOk result (λ new. new ≡ not (list_any (nat_eq number) self.old)) }
        ensures added { IfOk result (λ new. new ≡ true → self.new ≡ self.old ++ number ∷ []) }
        ensures known { IfOk result (λ new. new ≡ false → self.new ≡ self.old) }
        ensures err { OnErr result (self.new ≡ self.old) }
    {
        let (_, new) = self.set.insert_full(number)?;
        Ok(new)
    }
}

//! Tables of triples of numbers, which know the place of each.

use ale_base::OutOfMemory;
use indexmap::IndexSet;
use std::alloc::Global;
use std::marker::Model;

/// Triples of numbers in the order in which they were added, each once. Contracts see the list; a triple is found in a
/// time that does not grow with it.
#[derive(Drop)]
pub struct Triples {
    set: IndexSet<(usize, usize, usize)>,
}

impl Model for Triples {
    ghost use Rattle.std.specs.Prelude.{ℕ, List};

    ghost Value = { List (ℕ × ℕ × ℕ) };

    ghost view = { λ triples. triples.set.keys };
}

impl Triples {
    ghost use Rattle.std.specs.Prelude.{◌≡◌, ◌<◌, [], ◌∷◌, ◌++◌, not, true, false, length, position, IfOk, IfSome, OnErr};
    ghost use Rattle.std.specs.List.{list_any};
    ghost use Rattle.dist_model.specs.Triple.{same_triple};

    /// No triples. It takes no memory.
    pub fn new(alloc: Global) -> Triples
        ensures { result ≡ [] }
    {
        Triples {
            set: IndexSet::new(alloc),
        }
    }

    /// The place of a triple, from 0. None exactly where it is not there.
    pub fn place(&self, triple: (usize, usize, usize)) -> Option<usize>
        ensures place { result ≡ position (same_triple triple) self.now }
        ensures within { IfSome result (λ place. place < length self.now) }
    {
        self.set.get_index_of(&triple)
    }

    /// Adds a triple at the end unless it is there, and answers whether it is new. After an `Err` the triples are as
    /// before.
    pub fn add(&mut self, triple: (usize, usize, usize)) -> Result<bool, OutOfMemory>
        ensures new { IfOk result (λ new. new ≡ not (list_any (same_triple triple) self.old)) }
        ensures added { IfOk result (λ new. new ≡ true → self.new ≡ self.old ++ triple ∷ []) }
        ensures known { IfOk result (λ new. new ≡ false → self.new ≡ self.old) }
        ensures err { OnErr result (self.new ≡ self.old) }
    {
        let (_, new) = self.set.insert_full(triple)?;
        Ok(new)
    }
}

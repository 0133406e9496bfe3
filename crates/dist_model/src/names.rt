//! Tables of names, which know the place of each.

use ale_base::OutOfMemory;
use indexmap::IndexSet;
use std::alloc::Global;
use std::marker::Model;

/// Names in the order in which they were added, each once. Contracts see the list; a name is found in a time that does
/// not grow with it.
#[derive(Drop)]
pub struct Names {
    set: IndexSet<Vec<u8>>,
}

impl Model for Names {
    ghost use Rattle.std.specs.Prelude.{ℕ, List, map};

    ghost Value = { List (List ℕ) };

    ghost view = { λ names. map (λ key. key.items) names.set.keys };
}

impl Names {
    ghost use Rattle.std.specs.Prelude.{◌≡◌, ◌<◌, [], ◌∷◌, ◌++◌, not, true, false, length, position, IfOk, IfSome, OnErr};
    ghost use Rattle.std.specs.List.{list_any};
    ghost use Rattle.ale_base.specs.Text.{is_text};

    /// No names. It takes no memory.
    pub fn new(alloc: Global) -> Names
        ensures { result ≡ [] }
    {
        Names {
            set: IndexSet::new(alloc),
        }
    }

    /// How many names there are.
    pub fn len(&self) -> usize
        ensures { result ≡ length self.now }
    {
        self.set.len()
    }

    /// The place of a name, from 0. None exactly where it is not there.
    pub fn place(&self, name: &[u8]) -> Option<usize>
        ensures place { result ≡ position (is_text name.now) self.now }
        ensures within { IfSome result (λ place. place < length self.now) }
    {
        self.set.get_index_of(name)
    }

    /// Adds a name at the end unless it is there, and answers whether it is new. After an `Err` the names are as before.
    pub fn add(&mut self, alloc: Global, name: &[u8]) -> Result<bool, OutOfMemory>
        ensures new { IfOk result (λ new. new ≡ not (list_any (is_text name.now) self.old)) }
        ensures added { IfOk result (λ new. new ≡ true → self.new ≡ self.old ++ name.now ∷ []) }
        ensures known { IfOk result (λ new. new ≡ false → self.new ≡ self.old) }
        ensures err { OnErr result (self.new ≡ self.old) }
    {
        let (_, new) = self.set.insert_full(Vec::from_slice(alloc, name)?)?;
        Ok(new)
    }
}

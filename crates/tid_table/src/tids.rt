//! A table of transaction ids.

ghost use Rattle.std.specs.Prelude.{◌≡◌};

use ale_base::{OutOfMemory, Tid};
use std::alloc::Global;
use std::collections::BTreeSet;
use std::marker::Model;

/// The ids that were entered and are not forgotten. Contracts see a list of them, whose order says nothing: calls tell what is in
/// it. Each call takes time as the logarithm of their number.
#[derive(Drop)]
pub struct Tids {
    numbers: BTreeSet<(u8, u32)>,
}

impl Model for Tids {
    ghost use Rattle.std.specs.Prelude.{List, map};
    ghost use Rattle.ale_base.specs.Tid.{TidOf};

    ghost Value = { List TidOf };

    ghost use Rattle.tid_table.specs.Numbers.{tid_of};

    ghost view = { λ tids. map tid_of tids.numbers.keys };
}

impl Tids {
    ghost use Rattle.std.specs.Prelude.{◌≡◌, [], map, OnOk, OnErr};
    ghost use Rattle.unit_core.specs.Queues.{is_listed};
    ghost use Rattle.tid_table.specs.Numbers.{tid_of};
    ghost use Rattle.tid_table.specs.Tids.{Enters, Forgets};

    /// No ids. It takes no memory.
    pub fn new(alloc: Global) -> Tids
        ensures { result ≡ [] }
    {
        Tids {
            numbers: BTreeSet::new(alloc),
        }
    }

    /// Whether this id was entered and is not forgotten.
    pub fn seen(&self, tid: Tid) -> bool
        ensures { result ≡ is_listed tid self.now }
    {
        self.numbers.contains(&number_of(tid))
    }

    /// The numbers of each id that is seen: its system and its unit there.
    pub fn numbers(&self) -> &BTreeSet<(u8, u32)>
        ensures { map tid_of result.now.keys ≡ self.now }
    {
        &self.numbers
    }

    /// Enters an id: from now on it is seen. All others stay. After an `Err` all is as before.
    pub fn enter(&mut self, tid: Tid) -> Result<(), OutOfMemory>
        ensures ok { OnOk result (Enters tid self.old self.new) }
        ensures err { OnErr result (self.new ≡ self.old) }
    {
        self.numbers.insert(number_of(tid))?;
        Ok(())
    }

    /// Forgets an id: from now on it is not seen. All others stay.
    pub fn forget(&mut self, tid: Tid)
        ensures { Forgets tid self.old self.new }
    {
        let _known = self.numbers.remove(&number_of(tid));
    }
}

/// The numbers of an id: its system and its unit.
fn number_of(tid: Tid) -> (u8, u32)
    ensures { result ≡ (tid.system, tid.unit) }
{
    (tid.system().get(), tid.unit())
}

//! Objects in byte order, each once. Nothing outside this crate sees them.

ghost use Rattle.std.specs.Prelude.{◌≡◌, map};

use crate::{ObjectKey, Pointer};
use ale_base::{Items, OutOfMemory};
use std::alloc::Global;
use std::collections::BTreeSet;
use std::marker::Model;

/// Objects in byte order of their kinds and keys, each once. A call takes time as the logarithm of their number.
#[derive(Drop)]
pub(crate) struct ObjectSet {
    keys: BTreeSet<(Vec<u8>, Vec<u8>)>,
}

impl Model for ObjectSet {
    ghost use Rattle.std.specs.Prelude.{List, map};
    ghost use Rattle.change_pointers.specs.declared.pointer.ObjectKey.{ObjectKey};

    ghost Value = { List ObjectKey };

    ghost view = { λ objects. map (λ names. record { kind = names.0.items; key = names.1.items }) objects.keys.keys };
}

impl ObjectSet {
    ghost use Rattle.std.specs.Prelude.{◌≡◌, [], OnOk, IfOk};
    ghost use Rattle.change_pointers.specs.Pointers.{object_of, with_object};

    /// No objects. It takes no memory.
    pub(crate) fn new(alloc: Global) -> ObjectSet
        ensures { result ≡ [] }
    {
        ObjectSet {
            keys: BTreeSet::new(alloc),
        }
    }

    /// Adds the object of a pointer.
    pub(crate) fn add(&mut self, alloc: Global, pointer: &Pointer) -> Result<(), OutOfMemory>
        ensures { OnOk result (self.new ≡ with_object self.old (object_of pointer.now)) }
    {
        let kind = Vec::from_slice(alloc, pointer.kind.as_slice())?;
        let key = Vec::from_slice(alloc, pointer.key.as_slice())?;
        self.keys.insert((kind, key))?;
        Ok(())
    }

    /// The objects as a list.
    pub(crate) fn list(&self, alloc: Global) -> Result<Items<ObjectKey>, OutOfMemory>
        ensures { IfOk result (λ objects. objects ≡ self.now) }
    {
        let mut list = Items::new(alloc);
        for (kind, key) in self.keys.iter() {
            list.push(ObjectKey {
                kind: Items::from_slice(alloc, kind.as_slice())?,
                key: Items::from_slice(alloc, key.as_slice())?,
            })?;
        }
        Ok(list)
    }
}

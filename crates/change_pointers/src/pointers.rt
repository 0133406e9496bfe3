//! The change pointers of a system.

ghost use Rattle.std.specs.Prelude.{◌≡◌};

use crate::object_set::ObjectSet;
use crate::{ObjectKey, Pointer};
use ale_base::{Items, OutOfMemory};
use dist_model::MessageNo;
use std::alloc::Global;
use std::marker::Model;

/// The pointers that were noted and not cleared. Contracts see them in the order in which they were noted. `renumbering` has what
/// another model makes of them.
#[derive(Drop)]
pub struct Pointers {
    pub(crate) pointers: Items<Pointer>,
}

impl Model for Pointers {
    ghost use Rattle.std.specs.Prelude.{List};
    ghost use Rattle.change_pointers.specs.declared.pointer.Pointer.{Pointer};

    ghost Value = { List Pointer };

    ghost view = { λ all. all.pointers };
}

impl Pointers {
    ghost use Rattle.std.specs.Prelude.{◌≡◌, [], ◌∷◌, ◌++◌, OnOk, OnErr, IfOk};
    ghost use Rattle.change_pointers.specs.Laws.{AreWaiting, ClearsAlone};
    ghost use Rattle.change_pointers.specs.Pointers.{cleared, pending_of};

    /// No pointers. It takes no memory.
    pub fn new(alloc: Global) -> Pointers
        ensures { result ≡ [] }
    {
        Pointers {
            pointers: Items::new(alloc),
        }
    }

    /// Notes a pointer. After an `Err` all is as before.
    pub fn note(&mut self, pointer: Pointer) -> Result<(), OutOfMemory>
        ensures ok { OnOk result (self.new ≡ self.old ++ pointer ∷ []) }
        ensures err { OnErr result (self.new ≡ self.old) }
    {
        self.pointers.push(pointer)
    }

    /// The objects of which there are pointers of a message type, in byte order of their kinds and keys, each once.
    pub fn pending(
        &self,
        alloc: Global,
        message: MessageNo,
    ) -> Result<Items<ObjectKey>, OutOfMemory>
        ensures all { IfOk result (λ objects. objects ≡ pending_of message self.now) }
        ensures waiting { IfOk result (λ objects. AreWaiting message self.now objects) }
    {
        let mut objects = ObjectSet::new(alloc);
        let pointers = self.pointers.as_slice();
        for pointer in pointers {
            if pointer.message == message {
                objects.add(alloc, pointer)?;
            }
        }
        objects.list(alloc)
    }

    /// Removes the pointers of a message type. All others stay.
    pub fn clear(&mut self, message: MessageNo)
        ensures left { self.new ≡ cleared message self.old }
        ensures alone { ClearsAlone message self.old self.new }
    {
        self.pointers.retain(|pointer| pointer.message != message);
    }
}

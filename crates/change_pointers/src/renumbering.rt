//! Pointers when another model comes into force.

ghost use Rattle.std.specs.Prelude.{◌≡◌, IfOk, position};
ghost use Rattle.ale_base.specs.Text.{is_text};
ghost use Rattle.dist_model.specs.Message.{message_names};
ghost use Rattle.dist_model.specs.Model.{IsModel};
ghost use Rattle.change_pointers.specs.Renumbered.{number_in};

use crate::{Pointer, Pointers};
use ale_base::{Items, OutOfMemory};
use dist_model::{Lists, MessageNo, Model, message_name};
use std::alloc::Global;

impl Pointers {
    ghost use Rattle.std.specs.Prelude.{◌≡◌, OnOk, OnErr};
    ghost use Rattle.std.specs.List.{filter_map};
    ghost use Rattle.change_pointers.specs.Laws.{FollowNames};
    ghost use Rattle.change_pointers.specs.Renumbered.{renumbered};

    /// Another model comes into force: each pointer gets the number that its message type has there, by its name, and those of
    /// message types that are not there go. After an `Err` all is as before.
    pub fn renumber(
        &mut self,
        alloc: Global,
        before: &Model,
        after: &Model,
    ) -> Result<(), OutOfMemory>
        ensures ok { OnOk result (self.new ≡ filter_map (renumbered before.now after.now) self.old) }
        ensures names { OnOk result (FollowNames before.now after.now self.old self.new) }
        ensures err { OnErr result (self.new ≡ self.old) }
    {
        // The rules of a model say that each of its message types has a name.
        let _rules = after.as_lists();
        let mut kept = Items::new(alloc);
        let pointers = self.pointers.as_slice();
        for pointer in pointers {
            if let Some(message) = number_in(before.as_lists(), after.as_lists(), pointer.message) {
                kept.push(with_message(pointer, message)?)?;
            }
        }
        self.pointers = kept;
        Ok(())
    }
}

/// A copy of a pointer with this message type.
fn with_message(pointer: &Pointer, message: MessageNo) -> Result<Pointer, OutOfMemory>
    ensures { IfOk result (λ copy. copy ≡ record (pointer.now) { message = message }) }
{
    Ok(Pointer {
        kind: pointer.kind.clone()?,
        key: pointer.key.clone()?,
        field: pointer.field.clone()?,
        message,
    })
}

/// The number that a message type of one model has in another.
fn number_in(before: &Lists, after: &Lists, message: MessageNo) -> Option<MessageNo>
    requires { IsModel after.now }
    ensures { result ≡ number_in before.now after.now message }
{
    let name = message_name(before, message);
    let messages = after.messages.as_slice();
    for (place, other) in messages.iter().enumerate() {
        if name == other.name.as_slice() {
            return Some(MessageNo(place as u16));
        }
    }
    None
}

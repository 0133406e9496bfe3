//! The model of a landscape, and what its names stand for.

ghost use Rattle.std.specs.Prelude.{◌≡◌, ◌≤◌, filter, length, IfOk};
ghost use Rattle.dist_model.specs.declared.limits.TheConstants.{MOST_MESSAGES};
ghost use Rattle.dist_model.specs.Model.{basic_at};
ghost use Rattle.dist_model.specs.Index.{is_from};

use crate::index::{Index, index_of};
use crate::{Inbound, Lists, MessageNo, Outbound, Row, RowNo};
use ale_base::{Items, OutOfMemory, SystemNo};
use std::alloc::Global;

/// The distribution model of a landscape: lists that keep the rules of a model. Contracts see the lists. What is looked up
/// for each document goes through an index beside them.
#[derive(Drop)]
pub struct Model {
    lists: Lists,
    index: Index,
}

impl std::marker::Model for Model {
    ghost use Rattle.dist_model.specs.declared.lists.Lists.{Lists};
    ghost use Rattle.dist_model.specs.Model.{IsModel};
    ghost use Rattle.dist_model.specs.Index.{IsIndexOf};

    ghost Value = { Lists };

    ghost view = { λ model. model.lists };

    ghost invariant = { λ model. IsModel model.lists × IsIndexOf model.lists model.index };
}

impl Model {
    ghost use Rattle.std.specs.Prelude.{◌≡◌, ◌↔◌, ◌<◌, ℕ, None, Some, IfOk, IfSome, Contains, length, position};
    ghost use Rattle.std.specs.List.{find};
    ghost use Rattle.std.specs.Option.{option_copied};
    ghost use Rattle.ale_base.specs.Text.{is_text};
    ghost use Rattle.dist_model.specs.Inbound.{is_inbound};
    ghost use Rattle.dist_model.specs.Model.{IsModel, HasSystem, StandsForMessage, all_names, message_named, outbound_of, receivers_of, system_names, system_named};

    /// The model of lists that keep the rules.
    pub fn new(alloc: Global, lists: Lists) -> Result<Model, OutOfMemory>
        requires { IsModel lists }
        ensures { IfOk result (λ model. model ≡ lists) }
    {
        let index = index_of(alloc, &lists)?;
        Ok(Model { lists, index })
    }

    /// The lists, which keep the rules of a model.
    pub fn as_lists(&self) -> &Lists
        ensures same { result.now ≡ self.now }
        ensures kept { IsModel self.now }
    {
        &self.lists
    }

    /// The number of the system of this name. None exactly where no system has it.
    pub fn system(&self, name: &[u8]) -> Option<SystemNo>
        ensures found { result ≡ system_named name.now self.now }
        ensures named { (number : ℕ) → (result ≡ Some number) ↔ HasSystem self.now name.now number }
        ensures none { (result ≡ None) ↔ (Contains (system_names self.now.systems) name.now → ⊥) }
    {
        match self.place_named(name) {
            // there are at most 16
            Some(place) => SystemNo::of(place as u8 + 1),
            None => None,
        }
    }

    /// The place from 0 of the system of this name.
    fn place_named(&self, name: &[u8]) -> Option<usize>
        ensures place { result ≡ position (λ system. is_text name.now system.name) self.now.systems }
        ensures within { IfSome result (λ place. place < length self.now.systems) }
        ensures kept { IsModel self.now }
    {
        self.lists
            .systems
            .iter()
            .position(|system| name == system.name.as_slice())
    }

    /// The message type that a name stands for: the one that has it, or of which the reduced message type that has it is.
    /// None exactly where neither has it. It is found in a time that does not grow with the model.
    pub fn message(&self, name: &[u8]) -> Option<MessageNo>
        ensures found { result ≡ message_named name.now self.now }
        ensures named { (number : ℕ) → (result ≡ Some number) ↔ StandsForMessage self.now name.now number }
        ensures none { (result ≡ None) ↔ (Contains (all_names self.now) name.now → ⊥) }
    {
        match self.index.names.place(name) {
            Some(place) => basic_at(&self.lists, place),
            None => None,
        }
    }

    /// The rows of a sender and a message type of the model, in order. It takes a time that grows with the rows of the
    /// message type alone.
    pub fn receivers(
        &self,
        alloc: Global,
        sender: SystemNo,
        message: MessageNo,
    ) -> Result<Items<RowNo>, OutOfMemory>
        requires { message < length self.now.messages }
        ensures { IfOk result (λ rows. rows ≡ receivers_of sender message self.now) }
    {
        let number = message.0;
        let places = &self.index.rows[usize::from(number)];
        rows_from(alloc, self.lists.rows.as_slice(), sender, places.as_slice())
    }

    /// The profile of a row of the model. It is found in a time that does not grow with the model.
    pub fn outbound(&self, row: RowNo) -> &Outbound
        requires { row < length self.now.rows }
        ensures { outbound_of self.now row ≡ Some result.now }
    {
        let number = row.0;
        let place = self.index.profiles[usize::from(number)];
        &self.lists.outbound[usize::from(place)]
    }

    /// The profile by which a receiver posts what it gets of a message type, or of a reduced one, from a sender. None
    /// exactly where there is none. It is found in a time that does not grow with the model.
    pub fn inbound(&self, receiver: SystemNo, sender: SystemNo, message: &[u8]) -> Option<&Inbound>
        ensures { option_copied result ≡ find (is_inbound receiver sender message.now) self.now.inbound }
    {
        match self.index.names.place(message) {
            None => None,
            Some(name) => {
                let receiver = usize::from(receiver.get());
                let sender = usize::from(sender.get());
                match self.index.inbound.place((receiver, sender, name)) {
                    None => None,
                    Some(place) => self.lists.inbound.get(place),
                }
            }
        }
    }
}

/// The message type of the name at a place among all names.
fn basic_at(lists: &Lists, place: usize) -> Option<MessageNo>
    requires { length lists.now.messages ≤ MOST_MESSAGES }
    ensures { result ≡ basic_at lists.now place }
{
    let count = lists.messages.len();
    if place < count {
        return Some(MessageNo(place as u16));
    }
    match lists.reduced.get(place - count) {
        Some(one) => Some(one.message),
        None => None,
    }
}

fn is_from(rows: &[Row], sender: SystemNo, place: u16) -> bool
    ensures { result ≡ is_from rows.now sender place }
{
    match rows.get(usize::from(place)) {
        Some(row) => row.sender == sender,
        None => false,
    }
}

/// Those of some places that are of rows of a sender.
fn rows_from(
    alloc: Global,
    rows: &[Row],
    sender: SystemNo,
    places: &[u16],
) -> Result<Items<RowNo>, OutOfMemory>
    ensures { IfOk result (λ found. found ≡ filter (is_from rows.now sender) places.now) }
{
    let mut found = Items::new(alloc);
    for place in places {
        if is_from(rows, sender, *place) {
            found.push(RowNo(*place))?;
        }
    }
    Ok(found)
}

//! What the records of a log make of the application of its system, kept record by record. What a record does is told in
//! `receiving` for units that are executed, and here for all others.

ghost use Rattle.std.specs.Prelude.{◌≡◌, ◌++◌, OnOk};

use crate::InboundDocument;
use ale_base::{DocNum, FieldValue, Items, OutOfMemory};
use change_pointers::{Pointer, Pointers, noted};
use dist_model::Model;
use object_store::{Objects, put};
use status_log::{StatusAt, StatusLog, number_after};
use std::alloc::Global;

/// The inbound documents of a system with their statuses, its objects, and its change pointers, as its log has made them. Which
/// units were received is not kept.
///
/// After an `Err` of a call that changes them nothing is said of the tables: they are to be made again from the log.
#[derive(Drop)]
pub struct ApplicationTables {
    /// The documents, by their numbers from 1.
    pub(crate) documents: Items<InboundDocument>,
    /// Their statuses.
    pub(crate) statuses: StatusLog,
    pub(crate) objects: Objects,
    pub(crate) pointers: Pointers,
    /// How many records there are, with the one that is being taken.
    pub(crate) records: u64,
}

impl ApplicationTables {
    ghost use Rattle.std.specs.Prelude.{◌≡◌, ℕ, IfOk, List, OnOk, Some, slice_get, length, take};
    ghost use Rattle.std.specs.Option.{option_copied, option_map};
    ghost use Rattle.dist_model.specs.declared.lists.Lists.{Lists};
    ghost use Rattle.unit_core.specs.declared.records.Record.{Record};
    ghost use Rattle.change_pointers.specs.Noted.{noted_by};
    ghost use Rattle.status_log.specs.Given.{AreGivenIn, up_to};
    ghost use Rattle.inbound_post.specs.Application.{Application, changed, codes_of, counted, left_by, no_application, past_of, pointers_under, statuses_at};
    ghost use Rattle.change_pointers.specs.declared.pointer.Pointer.{Pointer};
    ghost use Rattle.inbound_post.specs.Laws.{TakesUp};
    ghost use Rattle.inbound_post.specs.Tables.{AreTablesOf, bare};

    /// The tables of a log that has no record. It takes no memory.
    pub fn new(alloc: Global) -> ApplicationTables
        ensures { AreTablesOf no_application result }
    {
        ApplicationTables {
            documents: Items::new(alloc),
            statuses: StatusLog::new(alloc),
            objects: Objects::new(alloc),
            pointers: Pointers::new(alloc),
            records: 0,
        }
    }

    /// How many inbound documents there are.
    pub fn count(&self) -> usize
        ensures { (application : Application) → AreTablesOf application self.now → result ≡ length application.documents }
    {
        self.documents.len()
    }

    /// The inbound document at a place from 0, whose number is one more. None exactly where there is none.
    pub fn document(&self, place: usize) -> Option<&InboundDocument>
        ensures { (application : Application) → AreTablesOf application self.now
            → option_copied result ≡ option_map bare (slice_get application.documents place) }
    {
        self.documents.get(place)
    }

    /// The statuses of the inbound document of a number, in the order in which it got them, each with the number of the record that
    /// gave it; none where there is no such document.
    pub fn statuses(&self, doc: DocNum) -> &[StatusAt]
        ensures are { (application : Application) → AreTablesOf application self.now → result.now ≡ statuses_at application.documents doc.0 }
        // Of a whole log they are in the order of its records, and each is of a record that may give it.
        ensures given { (models : List Lists) (log : List Record) → AreTablesOf (past_of models log).application self.now
            → AreGivenIn (codes_of doc.0) log result.now }
        // What the first records gave is what was there after them.
        ensures stood { (models : List Lists) (log : List Record) (count : ℕ) → AreTablesOf (past_of models log).application self.now
            → up_to count result.now ≡ statuses_at (past_of models (take count log)).application.documents doc.0 }
    {
        self.statuses.list(doc)
    }

    /// The objects.
    pub fn objects(&self) -> &Objects
        ensures { (application : Application) → AreTablesOf application self.now → result.now ≡ application.objects }
    {
        &self.objects
    }

    /// The change pointers that no gathering has taken up.
    pub fn pointers(&self) -> &Pointers
        ensures { (application : Application) → AreTablesOf application self.now → result.now ≡ application.pointers }
    {
        &self.pointers
    }

    /// Counts one more record, which is to be taken next: the statuses that `execute` and `pass_again` give have the number of the
    /// record that was counted last. Past the greatest number of 64 bits memory is wanting.
    pub fn count_record(&mut self) -> Result<(), OutOfMemory>
        ensures { (application : Application) → AreTablesOf application self.old → OnOk result (AreTablesOf (counted application) self.new) }
    {
        let number = number_after(self.records)?;
        self.records = number;
        Ok(())
    }

    /// A Put: an object gets values, and the pointers of what changes are noted. It answers how many these are.
    pub fn put(
        &mut self,
        alloc: Global,
        model: &Model,
        kind: &[u8],
        key: &[u8],
        fields: &[FieldValue],
    ) -> Result<usize, OutOfMemory>
        ensures count { (application : Application) → AreTablesOf application self.old
            → IfOk result (λ count. count ≡ length (noted_by model.now application.objects kind.now key.now fields.now)) }
        ensures changed { (application : Application) → AreTablesOf application self.old
            → OnOk result (AreTablesOf (changed model.now kind.now key.now fields.now application) self.new) }
    {
        let new = noted(alloc, model, &self.objects, kind, key, fields)?;
        let count = new.len();
        put(alloc, &mut self.objects, kind, key, fields)?;
        note_all(&mut self.pointers, new)?;
        Ok(count)
    }

    /// A Commit: a gathering, which names its message type, takes the pointers of this up.
    pub fn commit(&mut self, model: &Model, origin: &Option<Items<u8>>)
        ensures left { (application : Application) → AreTablesOf application self.old
            → AreTablesOf (record application { pointers = left_by model.now origin.now application.pointers }) self.new }
        // What the Commit leaves of the pointers, in other words.
        ensures takes_up { (application : Application) → AreTablesOf application self.old
            → (pointers : List Pointer) × AreTablesOf (record application { pointers = pointers }) self.new
            × TakesUp model.now origin.now application.pointers pointers }
    {
        // The rules of a model say that a name stands for one message type.
        let _rules = model.as_lists();
        if let Some(name) = origin {
            if let Some(message) = model.message(name.as_slice()) {
                self.pointers.clear(message);
            }
        }
    }

    /// A Model record: another model comes into force, and the pointers go by its numbers of message types. Those of message types
    /// that it does not have go.
    pub fn remodel(
        &mut self,
        alloc: Global,
        before: &Model,
        after: &Model,
    ) -> Result<(), OutOfMemory>
        ensures { (application : Application) → AreTablesOf application self.old → OnOk result (AreTablesOf
            (record application { pointers = pointers_under (Some before.now) (Some after.now) application.pointers }) self.new) }
    {
        self.pointers.renumber(alloc, before, after)
    }
}

/// Notes all pointers, in order.
fn note_all(pointers: &mut Pointers, new: Items<Pointer>) -> Result<(), OutOfMemory>
    ensures { OnOk result (pointers.new ≡ pointers.old ++ new) }
{
    for pointer in new.into_vec() {
        pointers.note(pointer)?;
    }
    Ok(())
}

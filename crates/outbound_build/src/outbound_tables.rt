//! The outbound documents of a log with their statuses.

use crate::adding::{add_made, pass, push_carried};
use crate::{AddFault, Added, OutDocument, Outbox};
use ale_base::{DocNum, Items, OutOfMemory, SystemNo};
use dist_model::Model;
use status_log::{StatusAt, StatusLog, number_after};
use std::alloc::Global;
use unit_core::Record;

/// The outbound documents of a system with their statuses, and which units carry them, as its log has made them.
///
/// After an `Err` of `take` nothing is said of the tables: they are to be made again from the log.
#[derive(Drop)]
pub struct OutboundTables {
    outbox: Outbox,
    /// The documents, by their numbers from 1.
    documents: Items<OutDocument>,
    /// The numbers of the documents that each unit carries, by the numbers of the units from 1.
    carried: Items<Items<DocNum>>,
    /// How many records there are.
    records: u64,
    statuses: StatusLog,
}

impl OutboundTables {
    ghost use Rattle.std.specs.Prelude.{◌≡◌, ◌≤◌, ◌<◌, ℕ, List, Err, IfOk, OnOk, length, slice_get, take};
    ghost use Rattle.std.specs.Option.{option_copied};
    ghost use Rattle.dist_model.specs.declared.lists.Lists.{Lists};
    ghost use Rattle.status_log.specs.Given.{AreGivenIn, up_to};
    ghost use Rattle.unit_core.specs.declared.records.Record.{Record};
    ghost use Rattle.unit_core.specs.declared.records.Record.TheVariants.{Dispatch};
    ghost use Rattle.outbound_build.specs.Added.{added_by, units_with};
    ghost use Rattle.outbound_build.specs.Addressed.{AreAddressed, AreMadeFor, AreUnitsAddressed};
    ghost use Rattle.outbound_build.specs.Carried.{AreCarried};
    ghost use Rattle.outbound_build.specs.Queued.{AreQueued};
    ghost use Rattle.outbound_build.specs.Statuses.{Tracked, codes_of, nothing_tracked, tracked_of, tracked_with};
    ghost use Rattle.outbound_build.specs.Tables.{AreTablesOf};

    /// The tables of a log that has no record. It takes no memory.
    pub fn new(alloc: Global) -> OutboundTables
        ensures { AreTablesOf nothing_tracked result }
    {
        OutboundTables {
            outbox: Outbox::new(alloc),
            documents: Items::new(alloc),
            carried: Items::new(alloc),
            records: 0,
            statuses: StatusLog::new(alloc),
        }
    }

    /// How many outbound documents there are.
    pub fn count(&self) -> usize
        ensures { (tracked : Tracked) → AreTablesOf tracked self.now → result ≡ length tracked.past.documents }
    {
        self.documents.len()
    }

    /// The outbound document at a place from 0, whose number is one more. None exactly where there is none.
    pub fn document(&self, place: usize) -> Option<&OutDocument>
        ensures { (tracked : Tracked) → AreTablesOf tracked self.now → option_copied result ≡ slice_get tracked.past.documents place }
    {
        self.documents.get(place)
    }

    /// The statuses of the document of a number, in the order in which it got them, each with the number of the record that gave
    /// it; none where there is no such document.
    pub fn statuses(&self, doc: DocNum) -> &[StatusAt]
        ensures are { (tracked : Tracked) → AreTablesOf tracked self.now → result.now ≡ tracked.statuses doc.0 }
        // Of a whole log they are in the order of its records, and each is of a record that may give it.
        ensures given { (models : List Lists) (log : List Record) → AreTablesOf (tracked_of models log) self.now → AreGivenIn codes_of log result.now }
        // What the first records gave is what was there after them.
        ensures stood { (models : List Lists) (log : List Record) (count : ℕ) → AreTablesOf (tracked_of models log) self.now
            → up_to count result.now ≡ (tracked_of models (take count log)).statuses doc.0 }
    {
        self.statuses.list(doc)
    }

    /// What is to be known of the log, so that one more record can be added.
    pub fn outbox(&self) -> &Outbox
        ensures { (tracked : Tracked) → AreTablesOf tracked self.now → result.now ≡ tracked.past.outbox }
    {
        &self.outbox
    }

    /// What one more record of a system's log adds, under the model in force there. Nothing changes; `take` takes it in.
    ///
    /// `TooMany` comes exactly where the log would have more than 65,536 units, with their number.
    pub fn added(
        &self,
        alloc: Global,
        model: &Model,
        system: SystemNo,
        next: &Record,
    ) -> Result<Added, AddFault>
        ensures added { (tracked : Tracked) → AreTablesOf tracked self.now
            → IfOk result (λ added. added ≡ added_by model.now system tracked.past.outbox next.now) }
        ensures queued { IfOk result (λ added. AreQueued model.now next.now added.units) }
        ensures made_for { IfOk result (λ added. AreMadeFor model.now system added.documents) }
        ensures addressed { (tracked : Tracked) → AreTablesOf tracked self.now
            → (next.now ≡ Dispatch → AreAddressed model.now system tracked.past.outbox.waiting)
            → IfOk result (λ added. AreUnitsAddressed model.now system added.units) }
        ensures carried { (tracked : Tracked) → AreTablesOf tracked self.now
            → IfOk result (AreCarried model.now system tracked.past.outbox.waiting next.now) }
        ensures few { (tracked : Tracked) → AreTablesOf tracked self.now
            → OnOk result (units_with model.now system tracked.past.outbox next.now ≤ 65536) }
        ensures too_many { (tracked : Tracked) → AreTablesOf tracked self.now → (count : ℕ) → result ≡ Err (AddFault.TooMany count)
            → (count ≡ units_with model.now system tracked.past.outbox next.now) × (65536 < count) }
    {
        self.outbox.added(alloc, model, system, next)
    }

    /// Takes in a record and what it adds: its documents with their first statuses, and what the record says of those before it. The
    /// record is counted first, and what it gives has its number. Past the greatest number of 64 bits memory is wanting.
    pub fn take(&mut self, alloc: Global, next: &Record, added: Added) -> Result<(), OutOfMemory>
        ensures { (tracked : Tracked) → AreTablesOf tracked self.old → OnOk result (AreTablesOf (tracked_with tracked next.now added) self.new) }
    {
        let number = number_after(self.records)?;
        self.records = number;
        self.outbox.take(alloc, next, &added)?;
        add_made(&mut self.statuses, number, added.documents.as_slice())?;
        pass(
            &mut self.statuses,
            number,
            self.carried.as_slice(),
            next,
            added.units.as_slice(),
        )?;
        let Added { documents, units } = added;
        push_carried(&mut self.carried, units)?;
        self.documents.append(documents)
    }
}

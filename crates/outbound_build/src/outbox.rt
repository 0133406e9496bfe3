//! What a running system keeps of its log's outbound documents and units.

ghost use Rattle.std.specs.Prelude.{◌≡◌, ◌≤◌, ◌<◌, ◌+◌, ℕ, suc, Err, IfOk, OnOk, length};
ghost use Rattle.outbound_build.specs.Added.{numbered, waits_of};

use crate::batch::{Batch, sent_of};
use crate::numbering::numbered;
use crate::packets::dispatched;
use crate::parcel::Parcel;
use crate::{AddFault, Added, Fate, OutDocument, OutUnit, Waiting};
use ale_base::{Items, OutOfMemory, SystemNo, Tid};
use dist_model::Model;
use std::alloc::Global;
use unit_core::Record;

/// What is to be known of the outbound documents and units of a log, so that one more record can be added: how many there
/// are, and which documents wait. The documents and units themselves are not kept.
#[derive(Drop)]
pub struct Outbox {
    /// How many documents there are.
    pub documents: u64,
    /// The documents that wait for a Dispatch, in the order of their numbers.
    pub waiting: Items<Waiting>,
    /// How many units there are.
    pub units: u64,
}

impl Outbox {
    ghost use Rattle.std.specs.Prelude.{◌≡◌, ◌≤◌, ◌<◌, ◌+◌, ℕ, Err, IfOk, OnOk, OnErr, length};
    ghost use Rattle.dist_model.specs.declared.lists.Lists.{Lists as ListsOf};
    ghost use Rattle.unit_core.specs.declared.records.Record.TheVariants.{Dispatch};
    ghost use Rattle.outbound_build.specs.Added.{added_by, after, batch_of, units_with};
    ghost use Rattle.outbound_build.specs.Addressed.{AreAddressed, AreMadeFor, AreUnitsAddressed};
    ghost use Rattle.outbound_build.specs.Carried.{AreCarried};
    ghost use Rattle.outbound_build.specs.Committed.{empty_outbox};
    ghost use Rattle.outbound_build.specs.Queued.{AreQueued};

    /// The outbox of a log that has no record.
    pub fn new(alloc: Global) -> Outbox
        ensures { result ≡ empty_outbox }
    {
        Outbox {
            documents: 0,
            waiting: Items::new(alloc),
            units: 0,
        }
    }

    /// What one more record of a system's log adds, under the model in force there. Nothing changes; `take` takes it in.
    ///
    /// `TooMany` comes exactly where the log would have more than 65,536 units, with their number. What a Commit takes
    /// grows with its own documents and what is sent of them, what a Dispatch takes with the documents that wait and the
    /// rows of the model.
    ///
    /// The control record of each document that it makes names this system as its sender, and as its receiver that of the row by
    /// which it was made; that of each document of a unit names the unit's receiver. The units of a Commit carry what it sends at
    /// once, and those of a Dispatch what waits for each row: each document once, in order.
    pub fn added(
        &self,
        alloc: Global,
        model: &Model,
        system: SystemNo,
        next: &Record,
    ) -> Result<Added, AddFault>
        ensures added { IfOk result (λ added. added ≡ added_by model.now system self.now next.now) }
        ensures queued { IfOk result (λ added. AreQueued model.now next.now added.units) }
        ensures made_for { IfOk result (λ added. AreMadeFor model.now system added.documents) }
        ensures addressed { (next.now ≡ Dispatch → AreAddressed model.now system self.now.waiting)
            → IfOk result (λ added. AreUnitsAddressed model.now system added.units) }
        ensures carried { IfOk result (AreCarried model.now system self.now.waiting next.now) }
        ensures few { OnOk result (units_with model.now system self.now next.now ≤ 65536) }
        ensures too_many { (count : ℕ) → result ≡ Err (AddFault.TooMany count)
            → (count ≡ units_with model.now system self.now next.now) × (65536 < count) }
    {
        // The rules of a model say that its rows and profiles name systems that it has.
        let _rules = model.as_lists();
        let batch = self.batch_of(alloc, model, system, next)?;
        let Batch { documents, parcels } = batch;
        let units = units_of(alloc, system, self.units, parcels)?;
        Ok(Added { documents, units })
    }

    /// What a record adds, while its units have no numbers yet.
    fn batch_of(
        &self,
        alloc: Global,
        model: &Model,
        system: SystemNo,
        next: &Record,
    ) -> Result<Batch, OutOfMemory>
        ensures { IfOk result (λ batch. batch ≡ batch_of model.now system self.now next.now) }
    {
        match next {
            Record::Commit { docs, .. } => sent_of(
                alloc,
                model,
                system,
                self.documents,
                docs.as_slice(),
            ),
            Record::Dispatch => Ok(Batch {
                documents: Items::new(alloc),
                parcels: dispatched(alloc, model, system, self.waiting.as_slice())?,
            }),
            _ => Ok(Batch {
                documents: Items::new(alloc),
                parcels: Items::new(alloc),
            }),
        }
    }

    /// Takes in a record and what it adds: the counts grow, documents that wait are kept, and a Dispatch leaves none of
    /// those that waited. What waits stays addressed. After an `Err` it is as before.
    pub fn take(&mut self, alloc: Global, next: &Record, added: &Added) -> Result<(), OutOfMemory>
        ensures taken { OnOk result (self.new ≡ after next.now added.now self.old) }
        ensures addressed { (model : ListsOf) (system : ℕ) → AreAddressed model system self.old.waiting → AreMadeFor model system added.now.documents
            → OnOk result (AreAddressed model system self.new.waiting) }
        ensures err { OnErr result (self.new ≡ self.old) }
    {
        let documents = sum(self.documents, added.documents.len())?;
        let units = sum(self.units, added.units.len())?;
        let more = waits_of(alloc, added.documents.as_slice())?;
        match next {
            Record::Dispatch => self.waiting = more,
            _ => self.waiting.append(more)?,
        }
        self.documents = documents;
        self.units = units;
        Ok(())
    }
}

/// The units with their numbers, where so many are before them.
fn units_of(
    alloc: Global,
    system: SystemNo,
    before: u64,
    parcels: Items<Parcel>,
) -> Result<Items<OutUnit>, AddFault>
    ensures units { IfOk result (λ units. units ≡ numbered system (suc before) parcels) }
    ensures few { OnOk result (before + length parcels ≤ 65536) }
    ensures too_many { (count : ℕ) → result ≡ Err (AddFault.TooMany count)
        → (count ≡ before + length parcels) × (65536 < count) }
{
    let count = sum(before, parcels.len())?;
    if count > u64::from(Tid::MAX_UNIT) {
        return Err(AddFault::TooMany(count));
    }
    let units = numbered(alloc, system, before as u32, parcels)?;
    Ok(units)
}

/// A count and more. It ends where memory does, at the greatest number of 64 bits.
fn sum(count: u64, more: usize) -> Result<u64, OutOfMemory>
    ensures { IfOk result (λ sum. sum ≡ count + more) }
{
    match count.checked_add(more as u64) {
        Some(sum) => Ok(sum),
        None => Err(OutOfMemory),
    }
}

/// The documents that wait, of some that were added.
fn waits_of(alloc: Global, documents: &[OutDocument]) -> Result<Items<Waiting>, OutOfMemory>
    ensures { IfOk result (λ waiting. waiting ≡ waits_of documents.now) }
{
    let mut waiting = Items::new(alloc);
    for document in documents {
        if let Fate::Waits = document.fate {
            waiting.push(Waiting {
                number: document.number,
                row: document.row,
                document: document.document.clone()?,
            })?;
        }
    }
    Ok(waiting)
}

//! What a Commit adds, while its units have no numbers yet.

ghost use Rattle.std.specs.Prelude.{◌≡◌, ◌<◌, ◌+◌, ◌∷◌, [], length, IfOk, OnOk};
ghost use Rattle.dist_model.specs.Model.{IsModel};
ghost use Rattle.idoc_tree.specs.Forest.{AllNodes};
ghost use Rattle.idoc_tree.specs.Lines.{IsNode};
ghost use Rattle.idoc_tree.specs.Nodes.{forest_of};
ghost use Rattle.segment_defs.specs.Definitions.{AreDefinitions};
ghost use Rattle.idoc_reading.specs.Document.{IsOfEntries};
ghost use Rattle.outbound_build.specs.Sent.{entries_of};
ghost use Rattle.outbound_build.specs.Document.{carried, document_of};
ghost use Rattle.outbound_build.specs.Added.{parcel_of, sent_of, with_document, with_master, with_row, with_rows, with_sent, with_unit};
ghost use Rattle.outbound_build.specs.declared.added.Fate.TheVariants.{Sent};
ghost use Rattle.outbound_build.specs.steps.Reading.{IsRead, master_in};

use crate::masters::{MasterDoc, master_of};
use crate::parcel::Parcel;
use crate::queue_lists::queues_by;
use crate::sending::sent;
use crate::{BuildFault, Fate, OutDocument, QueueLists};
use ale_base::{DocNum, Items, OutOfMemory, SystemNo};
use dist_model::{Lists, Model, Outbound, RowNo};
use idoc_tree::{Doc, flatten};
use segment_defs::Definitions;
use std::alloc::Global;
use unit_core::{RawUnitDoc, Shared};

/// What a record adds, while its units have no numbers yet.
#[derive(Drop)]
pub(crate) struct Batch {
    /// The documents.
    pub(crate) documents: Items<OutDocument>,
    /// The units.
    pub(crate) parcels: Items<Parcel>,
}

/// What is sent of the masters of a Commit, where so many documents are before it.
pub(crate) fn sent_of(
    alloc: Global,
    model: &Model,
    system: SystemNo,
    before: u64,
    docs: &[RawUnitDoc],
) -> Result<Batch, OutOfMemory>
    ensures { IfOk result (λ batch. batch ≡ sent_of model.now system before docs.now) }
{
    let mut batch = Batch {
        documents: Items::new(alloc),
        parcels: Items::new(alloc),
    };
    for doc in docs {
        add_master(alloc, model, system, before, doc, &mut batch)?;
    }
    Ok(batch)
}

/// Adds what is sent of a document of a Commit: nothing where it is not read.
fn add_master(
    alloc: Global,
    model: &Model,
    system: SystemNo,
    before: u64,
    doc: &RawUnitDoc,
    batch: &mut Batch,
) -> Result<(), OutOfMemory>
    ensures { OnOk result (batch.new ≡ with_master model.now system before batch.old doc.now) }
{
    match master_of(alloc, model, doc)? {
        None => Ok(()),
        Some(master) => add_rows(alloc, model, system, before, &master, batch),
    }
}

/// Adds what all rows of a sender send of a master.
fn add_rows(
    alloc: Global,
    model: &Model,
    system: SystemNo,
    before: u64,
    master: &MasterDoc,
    batch: &mut Batch,
) -> Result<(), OutOfMemory>
    requires { IsRead model.now master.now }
    ensures { OnOk result (batch.new ≡ with_rows model.now system before batch.old (master_in master.now)) }
{
    let rows = model.receivers(alloc, system, master.message)?;
    let places = rows.as_slice();
    for row in places {
        add_row(alloc, model, before, &master.doc, *row, batch)?;
    }
    Ok(())
}

/// Adds what one row sends of a master, if anything.
fn add_row(
    alloc: Global,
    model: &Model,
    before: u64,
    master: &Doc,
    row: RowNo,
    batch: &mut Batch,
) -> Result<(), OutOfMemory>
    requires row { row < length model.now.rows }
    requires of_entries { IsOfEntries model.now.definitions (entries_of model.now row master.now.control) (forest_of master.now.forest.items) }
    ensures { OnOk result (batch.new ≡ with_row model.now before (document_of master.now) batch.old row) }
{
    let number = next_number(before, batch.documents.len())?;
    match sent(alloc, model, row, number, master)? {
        None => Ok(()),
        Some(doc) => {
            let profile = model.outbound(row);
            add_sent(alloc, model.as_lists(), profile, number, row, &doc, batch)
        }
    }
}

/// The number after so many documents before a record and so many of it. The numbers of documents end where memory does:
/// at the greatest number of 64 bits.
fn next_number(before: u64, count: usize) -> Result<DocNum, OutOfMemory>
    ensures { IfOk result (λ number. number.0 ≡ before + count + 1) }
{
    let Some(last) = before.checked_add(count as u64) else {
        return Err(OutOfMemory);
    };
    let Some(number) = last.checked_add(1) else {
        return Err(OutOfMemory);
    };
    Ok(DocNum(number))
}

/// Adds a document that is sent, by the mode of its profile.
fn add_sent(
    alloc: Global,
    lists: &Lists,
    profile: &Outbound,
    number: DocNum,
    row: RowNo,
    doc: &Doc,
    batch: &mut Batch,
) -> Result<(), OutOfMemory>
    requires kept { IsModel lists.now }
    requires nodes { AllNodes (IsNode lists.now.definitions) (forest_of doc.now.forest.items) }
    ensures { OnOk result (batch.new ≡ with_sent lists.now number.0 row profile.now batch.old (document_of doc.now)) }
{
    let document = carried(alloc, &lists.definitions, doc)?;
    if profile.outmod == 4 {
        return add_document(number, row, document, Fate::Waits, batch);
    }
    match queues_by(alloc, lists, doc.forest.as_slice(), profile) {
        Err(BuildFault::OutOfMemory) => Err(OutOfMemory),
        Err(BuildFault::Name(fault)) => {
            add_document(number, row, document, Fate::Refused(fault), batch)
        }
        Ok(queues) => add_unit(alloc, number, row, profile, document, queues, batch),
    }
}

/// Adds a document that a unit carries at once, and that unit.
fn add_unit(
    alloc: Global,
    number: DocNum,
    row: RowNo,
    profile: &Outbound,
    document: RawUnitDoc,
    queues: QueueLists,
    batch: &mut Batch,
) -> Result<(), OutOfMemory>
    ensures { OnOk result (batch.new ≡ with_document number.0 row document Sent
        (parcel_of profile.now queues (number ∷ []) (document ∷ []) ∷ []) batch.old) }
{
    let parcel = single(alloc, profile, queues, number, &document)?;
    batch.parcels.push(parcel)?;
    add_document(number, row, document, Fate::Sent, batch)
}

/// The unit of one document.
fn single(
    alloc: Global,
    profile: &Outbound,
    queues: QueueLists,
    number: DocNum,
    document: &RawUnitDoc,
) -> Result<Parcel, OutOfMemory>
    ensures { IfOk result (λ parcel. parcel ≡ parcel_of profile.now queues (number ∷ []) (document.now ∷ [])) }
{
    let mut numbers = Vec::with_capacity(alloc, 1)?;
    numbers.push(number)?;
    let mut docs = Vec::with_capacity(alloc, 1)?;
    docs.push(document.clone()?)?;
    Ok(Parcel {
        receiver: profile.receiver,
        function: profile.function,
        queues,
        numbers: Items::from_vec(numbers),
        docs: Items::from_vec(docs),
    })
}

/// Adds a document.
fn add_document(
    number: DocNum,
    row: RowNo,
    document: RawUnitDoc,
    fate: Fate,
    batch: &mut Batch,
) -> Result<(), OutOfMemory>
    ensures { OnOk result (batch.new ≡ with_document number.0 row document fate [] batch.old) }
{
    batch.documents.push(OutDocument {
        number,
        row,
        fate,
        document,
    })?;
    Ok(())
}

/// A document as a unit carries it.
fn carried(alloc: Global, definitions: &Definitions, doc: &Doc) -> Result<RawUnitDoc, OutOfMemory>
    requires definitions { AreDefinitions definitions.now }
    requires nodes { AllNodes (IsNode definitions.now) (forest_of doc.now.forest.items) }
    ensures { IfOk result (λ document. document ≡ carried definitions.now (document_of doc.now)) }
{
    let mut segments = flatten(alloc, definitions, doc)?;
    // The document is kept, so its list gives back the room that it does not use.
    segments.shrink_to_fit();
    Ok(RawUnitDoc {
        control: Shared::new(alloc, doc.control.clone()?)?,
        segments: Items::from_vec(segments),
    })
}

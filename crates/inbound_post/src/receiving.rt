//! Documents that come in, and documents that are passed to the application again.

ghost use Rattle.std.specs.Prelude.{◌≡◌, ◌++◌, ◌∷◌, [], ◌==◌, List, ℕ, suc, IfOk, OnOk, if◌then◌else◌};
ghost use Rattle.status_log.specs.declared.status.Status.{Status};
ghost use Rattle.status_log.specs.Statuses.{AddsAll, given_by, plain};
ghost use Rattle.object_store.specs.Objects.{ObjectsOf};
ghost use Rattle.object_store.specs.Posting.{applied, outcome_of};
ghost use Rattle.inbound_post.specs.Application.{first_statuses, objects_with, status_of};

use crate::{ApplicationTables, DocPosting, InboundDocument, posting};
use ale_base::{DocNum, OutOfMemory, SystemNo};
use dist_model::Model;
use object_store::{Objects, Outcome, Posting, apply};
use status_log::{Status, StatusLog};
use std::alloc::Global;
use unit_core::RawUnitDoc;

impl ApplicationTables {
    ghost use Rattle.std.specs.Prelude.{OnOk};
    ghost use Rattle.inbound_post.specs.Application.{Application, arrived, arrived_all, passed_again};
    ghost use Rattle.inbound_post.specs.Tables.{AreTablesOf};

    /// An Execute or a Direct: the documents of a unit come in, in order, and of each becomes what `prepare` said of it.
    pub fn execute(
        &mut self,
        alloc: Global,
        sender: SystemNo,
        docs: &[RawUnitDoc],
        postings: &[DocPosting],
    ) -> Result<(), OutOfMemory>
        ensures { (application : Application) → AreTablesOf application self.old
            → OnOk result (AreTablesOf (arrived_all sender docs.now postings.now application) self.new) }
    {
        let mut left = postings;
        for doc in docs {
            let Some((becomes, others)) = left.split_first() else {
                return Ok(());
            };
            self.arrive(alloc, sender, doc, becomes)?;
            left = others;
        }
        Ok(())
    }

    /// A document comes in, and this becomes of it.
    fn arrive(
        &mut self,
        alloc: Global,
        sender: SystemNo,
        doc: &RawUnitDoc,
        becomes: &DocPosting,
    ) -> Result<(), OutOfMemory>
        ensures { (application : Application) → AreTablesOf application self.old
            → OnOk result (AreTablesOf (arrived sender doc.now becomes.now application) self.new) }
    {
        let number = document_after(self.documents.len())?;
        receive(
            alloc,
            &mut self.objects,
            &mut self.statuses,
            self.records,
            number,
            becomes,
        )?;
        self.documents.push(InboundDocument {
            sender,
            document: doc.clone()?,
        })
    }

    /// An App or a Repost: the document of a number is passed to the application again. Nothing changes where there is no such
    /// document.
    pub fn pass_again(
        &mut self,
        alloc: Global,
        model: &Model,
        doc: DocNum,
    ) -> Result<(), OutOfMemory>
        ensures { (application : Application) → AreTablesOf application self.old
            → OnOk result (AreTablesOf (passed_again model.now application doc.0) self.new) }
    {
        if doc.0 == 0 {
            return Ok(());
        }
        let by = self.records;
        match self.documents.get(doc.0 as usize - 1) {
            None => Ok(()),
            Some(document) => match posting(alloc, model, &document.document)? {
                None => self.statuses.add(doc, Status::plain(56), by),
                Some(posting) => {
                    pass(
                        alloc,
                        &mut self.objects,
                        &mut self.statuses,
                        by,
                        doc,
                        &posting,
                    )
                }
            },
        }
    }
}

/// The number of the document after so many. The numbers of documents end where memory does: at the greatest number of 64 bits.
fn document_after(count: usize) -> Result<DocNum, OutOfMemory>
    ensures { IfOk result (λ number. number.0 ≡ suc count) }
{
    match (count as u64).checked_add(1) {
        None => Err(OutOfMemory),
        Some(number) => Ok(DocNum(number)),
    }
}

/// The statuses that a document gets as it comes in by the record of a number, and what it makes of the objects.
fn receive(
    alloc: Global,
    objects: &mut Objects,
    statuses: &mut StatusLog,
    by: u64,
    number: DocNum,
    becomes: &DocPosting,
) -> Result<(), OutOfMemory>
    ensures objects { OnOk result (objects.new ≡ objects_with becomes.now objects.old) }
    ensures statuses { OnOk result (AddsAll number.0 (given_by by (first_statuses objects.old becomes.now)) statuses.old statuses.new) }
{
    statuses.add(number, Status::plain(50), by)?;
    match becomes {
        DocPosting::Post(posting) => {
            statuses.add(number, Status::plain(64), by)?;
            pass(alloc, objects, statuses, by, number, posting)
        }
        DocPosting::Waits => statuses.add(number, Status::plain(64), by),
        DocPosting::Errors => statuses.add(number, Status::plain(56), by),
    }
}

/// A document is passed to the application by the record of a number: 62, and what came of it.
fn pass(
    alloc: Global,
    objects: &mut Objects,
    statuses: &mut StatusLog,
    by: u64,
    number: DocNum,
    posting: &Posting,
) -> Result<(), OutOfMemory>
    ensures objects { OnOk result (objects.new ≡ applied posting.now objects.old) }
    ensures statuses { OnOk result (AddsAll number.0 (given_by by (plain 62 ∷ status_of (outcome_of posting.now objects.old) ∷ []))
        statuses.old statuses.new) }
{
    statuses.add(number, Status::plain(62), by)?;
    let outcome = apply(alloc, objects, posting)?;
    statuses.add(number, status_of(outcome), by)
}

/// The status by what came of a posting.
fn status_of(outcome: Outcome) -> Status
    ensures { result ≡ status_of outcome }
{
    match outcome {
        Outcome::Posted => Status::plain(53),
        Outcome::Refused(reason) => Status { code: 51, reason },
    }
}

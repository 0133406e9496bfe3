//! What a record of the log does to the tables.

ghost use Rattle.std.specs.Prelude.{◌≡◌, ℕ, List, Some, IsTrue, OnOk, IfOk};
ghost use Rattle.std.specs.Arc.{arc_value};
ghost use Rattle.std.specs.Option.{option_map};
ghost use Rattle.ale_base.specs.Tid.{TidOf};
ghost use Rattle.dist_model.specs.declared.lists.Lists.{Lists as ListsOf};
ghost use Rattle.unit_core.specs.declared.ale_unit.AleUnit.{AleUnit as UnitOf};
ghost use Rattle.unit_core.specs.declared.records.Record.TheVariants.{Direct, Execute};
ghost use Rattle.unit_core.specs.Queues.{unit_named};
ghost use Rattle.outbound_build.specs.Added.{adds_any};
ghost use Rattle.outbound_build.specs.Committed.{no_more};
ghost use Rattle.inbound_post.specs.Application.{Application as ApplicationOf};
ghost use Rattle.inbound_post.specs.Tables.{AreTablesOf as AreApplied};
ghost use Rattle.said_models.specs.Said.{said};
ghost use Rattle.document_state.specs.steps.Applying.{AddsAs, MadeUnder, applied_under, is_plain, postings_under, renumbered_at, said_behind};

use crate::{DocumentTables, Made};
use ale_base::{Items, OutOfMemory};
use dist_model::Model;
use inbound_post::{ApplicationTables, DocPosting};
use outbound_build::Added;
use std::alloc::Global;
use std::sync::Arc;
use system_tables::Application;
use unit_core::{AleUnit, Record};

impl Application for DocumentTables {
    ghost use Rattle.document_state.specs.Made.{GoesWith};
    ghost use Rattle.document_state.specs.Tables.{AreTablesOf};

    type Extra = Made;

    ghost stands = { λ tables log. AreTablesOf log tables };

    ghost goes_with = { λ tables log next made. GoesWith log next made };

    fn nothing() -> Made {
        Made::Nothing
    }

    fn note(&mut self, alloc: Global, next: &Record, made: Made) -> Result<(), OutOfMemory> {
        match made {
            Made::Brought(model) => {
                self.note_under(alloc, next, Made::Nothing)?;
                self.bring(alloc, next, model)
            }
            made => self.note_under(alloc, next, made),
        }
    }
}

impl DocumentTables {
    ghost use Rattle.std.specs.Prelude.{◌++◌, ◌∷◌, [], List, OnOk};
    ghost use Rattle.unit_core.specs.declared.records.Record.{Record};
    ghost use Rattle.document_state.specs.declared.made.Made.TheVariants.{Brought};
    ghost use Rattle.document_state.specs.Made.{GoesWith};
    ghost use Rattle.document_state.specs.Tables.{AreTablesOf};
    ghost use Rattle.document_state.specs.steps.Between.{GoesUnder, IsBetween};

    /// Notes a record under the model in force before it. It is counted first.
    fn note_under(&mut self, alloc: Global, next: &Record, made: Made) -> Result<(), OutOfMemory>
        ensures { (log : List Record) → AreTablesOf log self.old → GoesUnder log next.now made → OnOk result (IsBetween log next.now self.new) }
    {
        self.inbound.count_record()?;
        let added = apply(alloc, &mut self.inbound, &self.model, next, made)?;
        self.outbound.take(alloc, next, added)
    }

    /// The model that the text of a record says comes into force; the record was noted under the model before it.
    fn bring(
        &mut self,
        alloc: Global,
        next: &Record,
        model: Option<Arc<Model>>,
    ) -> Result<(), OutOfMemory>
        ensures { (log : List Record) → GoesWith log next.now (Brought model) → IsBetween log next.now self.old
            → OnOk result (AreTablesOf (log ++ next.now ∷ []) self.new) }
    {
        let model = behind(self.has_begun, &self.model, model);
        renumber(alloc, &mut self.inbound, &self.model, &model, next)?;
        self.model = model;
        self.has_begun = true;
        Ok(())
    }
}

/// The model in force behind a text: what the text says, if each text before it says one.
fn behind(
    has_begun: bool,
    before: &Option<Arc<Model>>,
    model: Option<Arc<Model>>,
) -> Option<Arc<Model>>
    ensures { (text : List ℕ) → option_map arc_value model ≡ said text
        → option_map arc_value result ≡ said_behind has_begun (option_map arc_value before.now) text }
{
    if has_begun && before.is_none() {
        return None;
    }
    model
}

/// What a record, which is counted already, does to the inbound documents, objects and pointers, under the model in force and with what
/// was made for it; and what it adds to the outbound documents and units.
fn apply(
    alloc: Global,
    inbound: &mut ApplicationTables,
    model: &Option<Arc<Model>>,
    next: &Record,
    made: Made,
) -> Result<Added, OutOfMemory>
    ensures added { IfOk result (AddsAs made) }
    ensures applied { (application : ApplicationOf) (system : ℕ) → AreApplied application inbound.old
        → MadeUnder (option_map arc_value model.now) system application next.now made
        → OnOk result (AreApplied (applied_under (option_map arc_value model.now) system application next.now) inbound.new) }
{
    match made {
        Made::Sent(added) => {
            take_up(inbound, model, next);
            Ok(added)
        }
        Made::Postings(postings) => {
            execute_direct(alloc, inbound, model, next, postings.as_slice())?;
            Ok(none_added(alloc))
        }
        Made::Executed { unit, postings } => {
            execute(alloc, inbound, model, &unit, postings.as_slice())?;
            Ok(none_added(alloc))
        }
        Made::Nothing | Made::Brought(_) => {
            change(alloc, inbound, model, next)?;
            Ok(none_added(alloc))
        }
    }
}

/// No documents and no units.
pub(crate) fn none_added(alloc: Global) -> Added
    ensures { result ≡ no_more }
{
    Added {
        documents: Items::new(alloc),
        units: Items::new(alloc),
    }
}

/// A gathering takes up the pointers of its message type; every other Commit, and a Dispatch, leave them.
fn take_up(inbound: &mut ApplicationTables, model: &Option<Arc<Model>>, next: &Record)
    ensures { (application : ApplicationOf) (system : ℕ) → AreApplied application inbound.old → IsTrue (adds_any next.now)
        → AreApplied (applied_under (option_map arc_value model.now) system application next.now) inbound.new }
{
    if let (Some(model), Record::Commit { origin, .. }) = (model, next) {
        inbound.commit(model, origin);
    }
}

/// A unit is received and executed at once: of its documents becomes what was prepared.
fn execute_direct(
    alloc: Global,
    inbound: &mut ApplicationTables,
    model: &Option<Arc<Model>>,
    next: &Record,
    postings: &[DocPosting],
) -> Result<(), OutOfMemory>
    ensures { (application : ApplicationOf) (system : ℕ) (unit : UnitOf) → AreApplied application inbound.old → next.now ≡ Direct unit
        → postings.now ≡ postings_under (option_map arc_value model.now) system unit
        → OnOk result (AreApplied (applied_under (option_map arc_value model.now) system application next.now) inbound.new) }
{
    match (model, next) {
        (Some(_), Record::Direct { unit }) => {
            inbound.execute(alloc, unit.sender, unit.docs.as_slice(), postings)
        }
        _ => Ok(()),
    }
}

/// A unit that was received is executed: of its documents becomes what was prepared.
fn execute(
    alloc: Global,
    inbound: &mut ApplicationTables,
    model: &Option<Arc<Model>>,
    unit: &AleUnit,
    postings: &[DocPosting],
) -> Result<(), OutOfMemory>
    ensures { (application : ApplicationOf) (system : ℕ) (tid : TidOf) → AreApplied application inbound.old
        → ((lists : ListsOf) → option_map arc_value model.now ≡ Some lists → unit_named tid application.received ≡ Some unit.now)
        → postings.now ≡ postings_under (option_map arc_value model.now) system unit.now
        → OnOk result (AreApplied (applied_under (option_map arc_value model.now) system application (Execute tid)) inbound.new) }
{
    match model {
        None => Ok(()),
        Some(_) => inbound.execute(alloc, unit.sender, unit.docs.as_slice(), postings),
    }
}

/// What a record does for which nothing was made: an object is changed, or a document is passed to the application again.
fn change(
    alloc: Global,
    inbound: &mut ApplicationTables,
    model: &Option<Arc<Model>>,
    next: &Record,
) -> Result<(), OutOfMemory>
    ensures { (application : ApplicationOf) (system : ℕ) → AreApplied application inbound.old → IsTrue (is_plain next.now)
        → OnOk result (AreApplied (applied_under (option_map arc_value model.now) system application next.now) inbound.new) }
{
    let Some(model) = model else {
        return Ok(());
    };
    match next {
        Record::Put { kind, key, fields } => {
            let _count = inbound.put(
                alloc,
                model,
                kind.as_slice(),
                key.as_slice(),
                fields.as_slice(),
            )?;
            Ok(())
        }
        Record::App { doc } | Record::Repost { doc } => inbound.pass_again(alloc, model, *doc),
        _ => Ok(()),
    }
}

/// Where a record brings another model into force, the pointers go by its numbers of message types.
fn renumber(
    alloc: Global,
    inbound: &mut ApplicationTables,
    before: &Option<Arc<Model>>,
    after: &Option<Arc<Model>>,
    next: &Record,
) -> Result<(), OutOfMemory>
    ensures { (application : ApplicationOf) → AreApplied application inbound.old → OnOk result (AreApplied
        (renumbered_at (option_map arc_value before.now) (option_map arc_value after.now) next.now application) inbound.new) }
{
    match (before, after, next) {
        (Some(before), Some(after), Record::Model { .. }) => inbound.remodel(alloc, before, after),
        _ => Ok(()),
    }
}

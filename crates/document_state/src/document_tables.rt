//! The tables of a system's documents, and what is asked of them. What a record of the log does to them is in `noting.rt`.

ghost use Rattle.std.specs.Prelude.{◌≡◌};
ghost use Rattle.std.specs.Option.{option_copied, option_map};
ghost use Rattle.std.specs.Arc.{arc_value};
ghost use Rattle.inbound_post.specs.Prepared.{offers};

use crate::noting::none_added;
use ale_base::{Fixed, Items, OutOfMemory, SystemNo};
use dist_model::{Lists, Model};
use inbound_post::{ApplicationTables, DocPosting, Prepared, prepare};
use outbound_build::{AddFault, Added, OutboundTables};
use std::alloc::Global;
use std::sync::Arc;
use unit_core::{AleUnit, Record};

/// The outbound documents and units of a system, its inbound documents with their objects and change pointers, and the model by which
/// it works, as its log has made them.
///
/// After an `Err` of `note` nothing is said of the tables: they are to be made again from the log.
#[derive(Drop)]
pub struct DocumentTables {
    /// Whether the log has a text.
    pub(crate) has_begun: bool,
    /// The model in force. None where a text of the log says none.
    pub(crate) model: Option<Arc<Model>>,
    pub(crate) outbound: OutboundTables,
    pub(crate) inbound: ApplicationTables,
}

impl DocumentTables {
    ghost use Rattle.std.specs.Prelude.{◌≡◌, ◌+◌, ◌<◌, ◌≤◌, ℕ, List, [], false, Some, Err, IfOk, OnOk, length};
    ghost use Rattle.std.specs.Option.{option_map_or};
    ghost use Rattle.dist_model.specs.declared.lists.Lists.{Lists as ListsOf};
    ghost use Rattle.inbound_post.specs.Prepared.{offers};
    ghost use Rattle.unit_core.specs.declared.records.Record.{Record};
    ghost use Rattle.said_models.specs.OfLog.{model_of};
    ghost use Rattle.outbound_build.specs.Addressed.{AreMadeFor, AreUnitsAddressed};
    ghost use Rattle.outbound_build.specs.Carried.{AreCarried};
    ghost use Rattle.outbound_build.specs.Tables.{AreTablesOf as AreSent};
    ghost use Rattle.inbound_post.specs.Tables.{AreTablesOf as AreApplied};
    ghost use Rattle.document_state.specs.OfLog.{sent_by, applied_by, added_behind, postings_behind};
    ghost use Rattle.trfc_protocol.specs.Legal.{IsLegal};
    ghost use Rattle.document_state.specs.Meaning.{model_meaning};
    ghost use Rattle.document_state.specs.Tables.{AreTablesOf};

    /// The tables of a log that has no record. It takes no memory.
    pub fn new(alloc: Global) -> DocumentTables
        ensures { AreTablesOf [] result }
    {
        DocumentTables {
            has_begun: false,
            model: None,
            outbound: OutboundTables::new(alloc),
            inbound: ApplicationTables::new(alloc),
        }
    }

    /// The model in force behind the log. None exactly where it has no text, or one that says no model.
    pub fn model(&self) -> Option<&Arc<Model>>
        ensures { (log : List Record) → AreTablesOf log self.now → option_map arc_value (option_copied result) ≡ model_of log }
    {
        self.model.as_ref()
    }

    /// The outbound documents of the log with their statuses.
    pub fn outbound(&self) -> &OutboundTables
        ensures { (log : List Record) → AreTablesOf log self.now → AreSent (sent_by log) result.now }
    {
        &self.outbound
    }

    /// The inbound documents of the log with their statuses, its objects and its change pointers.
    pub fn inbound(&self) -> &ApplicationTables
        ensures { (log : List Record) → AreTablesOf log self.now → AreApplied (applied_by log).application result.now }
    {
        &self.inbound
    }

    /// Whether the system of this number offers a function, by the model in force behind its log: none where there is none.
    pub fn offers(&self, system: SystemNo, function: &Fixed<30>) -> bool
        ensures { (log : List Record) → AreTablesOf log self.now
            → result ≡ option_map_or (λ model. offers model system function.now) (model_of log) false }
    {
        match &self.model {
            None => false,
            Some(model) => is_offered(model.as_lists(), system, function),
        }
    }

    /// What one more record adds to the outbound documents and units of the system of this number, by the model in force behind its
    /// log: nothing where there is none. Nothing changes; `note` takes it in.
    ///
    /// `TooMany` comes exactly where a model is in force and the log would have more than 65,536 units, with their number.
    /// `OutOfMemory` comes where a request for memory was refused.
    ///
    /// Behind a legal log each document that it adds is from this system to the receiver of its row, and each document of a unit
    /// from this system to the unit's receiver, by the names in its control record. The units carry each document once that is
    /// sent at once, or that waits and is dispatched.
    pub fn added(&self, alloc: Global, system: SystemNo, next: &Record) -> Result<Added, AddFault>
        ensures added { (log : List Record) → AreTablesOf log self.now → (sent_by log).past.system ≡ system
            → IfOk result (λ added. added ≡ added_behind log next.now) }
        ensures made_for { (log : List Record) → AreTablesOf log self.now → (model : ListsOf) → model_of log ≡ Some model
            → IfOk result (λ added. AreMadeFor model system added.documents) }
        ensures addressed { (systems : ℕ) (log : List Record) → AreTablesOf log self.now → IsLegal (model_meaning systems) system log
            → (model : ListsOf) → model_of log ≡ Some model → IfOk result (λ added. AreUnitsAddressed model system added.units) }
        ensures carried { (log : List Record) → AreTablesOf log self.now → (model : ListsOf) → model_of log ≡ Some model
            → IfOk result (AreCarried model system (sent_by log).past.outbox.waiting next.now) }
        ensures few { (log : List Record) → AreTablesOf log self.now → (sent_by log).past.system ≡ system
            → (model : ListsOf) → model_of log ≡ Some model
            → OnOk result (length (sent_by log).past.units + length (added_behind log next.now).units ≤ 65536) }
        ensures too_many { (log : List Record) → AreTablesOf log self.now → (sent_by log).past.system ≡ system
            → (count : ℕ) → result ≡ Err (AddFault.TooMany count)
            → (count ≡ length (sent_by log).past.units + length (added_behind log next.now).units) × (65536 < count)
            × ((model : ListsOf) × (model_of log ≡ Some model)) }
    {
        match &self.model {
            None => Ok(none_added(alloc)),
            Some(model) => self.outbound.added(alloc, model, system, next),
        }
    }

    /// What becomes of the documents of a unit that the system of this number executes behind its log, by the model in force there:
    /// nothing where there is none.
    pub fn postings(
        &self,
        alloc: Global,
        receiver: SystemNo,
        unit: &AleUnit,
    ) -> Result<Items<DocPosting>, OutOfMemory>
        ensures { (log : List Record) → AreTablesOf log self.now → (applied_by log).system ≡ receiver
            → IfOk result (λ postings. postings ≡ postings_behind log unit.now) }
    {
        match &self.model {
            None => Ok(Items::new(alloc)),
            Some(model) => {
                let Prepared { postings, .. } = prepare(alloc, model, receiver, unit)?;
                Ok(postings)
            }
        }
    }
}

/// Whether a system of a model offers a function.
fn is_offered(model: &Lists, system: SystemNo, function: &Fixed<30>) -> bool
    ensures { result ≡ offers model.now system function.now }
{
    match model.systems.get(usize::from(system.get()) - 1) {
        None => false,
        Some(system) => system.functions.iter().any(|own| own == function),
    }
}

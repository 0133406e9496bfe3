//! A model that a text says is to come into force: whether the one in force lets it, and the record that brings it.

ghost use Rattle.std.specs.Prelude.{◌≡◌, ◌≤◌, List, Some, None, length, nat_lt, IfOk, if◌then◌else◌};
ghost use Rattle.std.specs.Arc.{arc_value};
ghost use Rattle.std.specs.Option.{option_and_then, option_map};
ghost use Rattle.byte_journal.specs.Log.{most_bytes};
ghost use Rattle.model_growth.specs.Growth.{first_unkept};
ghost use Rattle.model_growth.specs.Paths.{path_of};
ghost use Rattle.unit_core.specs.declared.records.Record.{Record as RecordOf};
ghost use Rattle.unit_core.specs.declared.records.Record.TheVariants as log;
ghost use Rattle.unit_landscape.specs.declared.beginning.TheConstants.{MOST_TEXT};
ghost use Rattle.said_models.specs.OfLog.{model_of};
ghost use Rattle.said_models.specs.Said.{said};
ghost use Rattle.status_log.specs.declared.refusal.Refusal.TheVariants.{N10, N13, N15};
ghost use Rattle.document_state.specs.Allowed.{waits_any};
ghost use Rattle.document_state.specs.Tables.{AreTablesOf};
ghost use Rattle.landscape.specs.Asked.{asked_model, waiting_in};
ghost use Rattle.landscape.specs.Remodelled.{MayAs};
ghost use Rattle.landscape.specs.steps.Judged.{JudgedModelOrNone};

use crate::wanted::Brings;
use ale_base::{Items, OutOfMemory};
use byte_journal::Journal;
use dist_model::Model;
use document_state::DocumentTables;
use model_growth::first_unkept;
use said_models::differs;
use status_log::Refusal;
use std::alloc::Global;
use std::sync::Arc;
use unit_core::Record;

/// The record that brings a model, with the model, which is that of the text. None where the text in force is this one. `N15` comes exactly
/// where it is another one and the model in force has a part that this one does not keep; `N13` else where documents wait to be
/// dispatched; `N12` where no model is in force.
pub(crate) fn bring(
    alloc: Global,
    tables: &DocumentTables,
    log: &[Record],
    model: &Arc<Model>,
    text: &[u8],
) -> Result<Option<Brings>, Refusal>
    requires says { said text.now ≡ Some (arc_value model.now) }
    requires short { length text.now ≤ MOST_TEXT }
    ensures { AreTablesOf log.now tables.now → JudgedModelOrNone log.now (asked_model log.now (arc_value model.now) text.now) result }
{
    let Some(old) = tables.model() else {
        return Err(Refusal::N12);
    };
    if !differs(text, log) {
        return Ok(None);
    }
    keeps(alloc, old, model)?;
    waiting(tables)?;
    Ok(Some(Brings {
        next: record_of(alloc, text)?,
        model: shared(model)?,
    }))
}

/// The same model for one more owner.
fn shared(model: &Arc<Model>) -> Result<Arc<Model>, OutOfMemory>
    ensures { IfOk result (λ its. arc_value its ≡ arc_value model.now) }
{
    Ok(Arc::try_clone(model)?)
}

/// The record that brings a text into force.
pub(crate) fn record_of(alloc: Global, text: &[u8]) -> Result<Record, OutOfMemory>
    ensures { IfOk result (λ next. next ≡ log.Model text.now) }
{
    Ok(Record::Model {
        text: Items::from_slice(alloc, text)?,
    })
}

/// Whether a model keeps what the one in force has, if one is. Else `N15` tells the path of the first part that it does not keep.
pub(crate) fn unkept(alloc: Global, tables: &DocumentTables, model: &Model) -> Result<(), Refusal>
    ensures { (log : List RecordOf) → AreTablesOf log tables.now
        → MayAs (option_map (λ part. N15 (path_of part)) (option_and_then (λ old. first_unkept old model.now) (model_of log))) result }
{
    match tables.model() {
        None => Ok(()),
        Some(old) => keeps(alloc, old, model),
    }
}

/// Whether a model keeps what an old one has. Else `N15` tells the path of the first part that it does not keep.
fn keeps(alloc: Global, old: &Model, model: &Model) -> Result<(), Refusal>
    ensures { MayAs (option_map (λ part. N15 (path_of part)) (first_unkept old.now model.now)) result }
{
    match first_unkept(old.as_lists(), model.as_lists()) {
        None => Ok(()),
        Some(part) => Err(Refusal::N15(part.path(alloc)?)),
    }
}

/// Whether no document waits to be dispatched. Else `N13` tells how many do.
pub(crate) fn waiting(tables: &DocumentTables) -> Result<(), Refusal>
    ensures { (log : List RecordOf) → AreTablesOf log tables.now
        → MayAs (if waits_any log then Some (N13 (waiting_in log)) else None) result }
{
    match tables.outbound().outbox().waiting.len() {
        0 => Ok(()),
        count => Err(Refusal::N13(count as u64)),
    }
}

/// Whether a volume may be so long. Else `N10` tells that length.
pub(crate) fn fits(size: u64) -> Result<(), Refusal>
    ensures { MayAs (if nat_lt most_bytes size then Some (N10 size) else None) result }
{
    if size > Journal::MOST_BYTES {
        return Err(Refusal::N10(size));
    }
    Ok(())
}

//! Which records of the application may follow a log, by its tables.

ghost use Rattle.std.specs.Prelude.{◌≡◌, List, IfOk, Some, true};
ghost use Rattle.dist_model.specs.declared.lists.Lists.{Lists as ListsOf};
ghost use Rattle.outbound_build.specs.Added.{adds_any};
ghost use Rattle.unit_core.specs.declared.records.Record.{Record};
ghost use Rattle.said_models.specs.OfLog.{model_of};
ghost use Rattle.document_state.specs.Tables.{AreTablesOf};
ghost use Rattle.document_state.specs.OfLog.{sent_by};
ghost use Rattle.document_state.specs.Allowed.{allowed, allowed_under, has_room, is_ready, waits_any, stands_at, may_replace};

use crate::DocumentTables;
use ale_base::{DocNum, OutOfMemory, SystemNo};
use application_rules::{last_is, may_commit, may_put};
use dist_model::Model;
use model_growth::first_unkept;
use outbound_build::AddFault;
use said_models::Readings;
use std::alloc::Global;
use unit_core::Record;

/// Whether a record of the application may follow the log of the system of this number whose tables these are: the model in force is
/// one of so many systems, and allows it.
pub fn is_allowed(
    alloc: Global,
    tables: &DocumentTables,
    readings: &mut Readings,
    systems: u8,
    system: SystemNo,
    next: &Record,
) -> Result<bool, OutOfMemory>
    ensures { (log : List Record) → AreTablesOf log tables.now → (sent_by log).past.system ≡ system
        → IfOk result (λ may. may ≡ allowed systems log next.now) }
{
    match tables.model() {
        None => Ok(false),
        Some(model) => {
            if model.as_lists().systems.len() != usize::from(systems) {
                return Ok(false);
            }
            is_allowed_under(alloc, tables, readings, model, system, next)
        }
    }
}

/// Whether the model in force allows a record.
fn is_allowed_under(
    alloc: Global,
    tables: &DocumentTables,
    readings: &mut Readings,
    model: &Model,
    system: SystemNo,
    next: &Record,
) -> Result<bool, OutOfMemory>
    ensures { (log : List Record) → AreTablesOf log tables.now → model_of log ≡ Some model.now → (sent_by log).past.system ≡ system
        → IfOk result (λ may. may ≡ allowed_under log model.now next.now) }
{
    match next {
        Record::Commit { .. } | Record::Dispatch => adds_allowed(
            alloc, tables, model, system, next,
        ),
        Record::Put { kind, key, fields } => Ok(may_put(
            model,
            kind.as_slice(),
            key.as_slice(),
            fields.as_slice(),
        )),
        Record::App { doc } => Ok(stands_at(tables, 64, *doc)),
        Record::Repost { doc } => Ok(stands_at(tables, 51, *doc)),
        Record::Model { text } => {
            if waits_any(tables) {
                return Ok(false);
            }
            may_replace(alloc, readings, model, text.as_slice())
        }
        _ => Ok(false),
    }
}

/// Whether the model in force allows a Commit or a Dispatch, and no other record.
fn adds_allowed(
    alloc: Global,
    tables: &DocumentTables,
    model: &Model,
    system: SystemNo,
    next: &Record,
) -> Result<bool, OutOfMemory>
    ensures { (log : List Record) → AreTablesOf log tables.now → model_of log ≡ Some model.now → (sent_by log).past.system ≡ system
        → adds_any next.now ≡ true → IfOk result (λ may. may ≡ allowed_under log model.now next.now) }
{
    if !is_ready(alloc, tables, model, next)? {
        return Ok(false);
    }
    has_room(alloc, tables, system, next)
}

/// Whether a Commit may follow, or a document waits for a Dispatch, however many units there would be.
fn is_ready(
    alloc: Global,
    tables: &DocumentTables,
    model: &Model,
    next: &Record,
) -> Result<bool, OutOfMemory>
    ensures { (log : List Record) → AreTablesOf log tables.now → IfOk result (λ ready. ready ≡ is_ready log model.now next.now) }
{
    match next {
        Record::Commit { origin, docs } => may_commit(
            alloc,
            model,
            tables.inbound().objects(),
            tables.inbound().pointers(),
            origin,
            docs.as_slice(),
        ),
        Record::Dispatch => Ok(waits_any(tables)),
        _ => Ok(false),
    }
}

/// Whether there is room for the units of a record, where a model is in force.
fn has_room(
    alloc: Global,
    tables: &DocumentTables,
    system: SystemNo,
    next: &Record,
) -> Result<bool, OutOfMemory>
    ensures { (log : List Record) → AreTablesOf log tables.now → (sent_by log).past.system ≡ system → (model : ListsOf) → model_of log ≡ Some model
        → IfOk result (λ has. has ≡ has_room log next.now) }
{
    match tables.added(alloc, system, next) {
        Ok(_added) => Ok(true),
        Err(AddFault::TooMany(_)) => Ok(false),
        Err(AddFault::OutOfMemory) => Err(OutOfMemory),
    }
}

/// Whether the last status of the inbound document of a number has a code.
fn stands_at(tables: &DocumentTables, code: u8, doc: DocNum) -> bool
    ensures { (log : List Record) → AreTablesOf log tables.now → result ≡ stands_at log code doc.0 }
{
    last_is(code, tables.inbound().statuses(doc))
}

/// Whether a document waits to be dispatched.
fn waits_any(tables: &DocumentTables) -> bool
    ensures { (log : List Record) → AreTablesOf log tables.now → result ≡ waits_any log }
{
    !tables.outbound().outbox().waiting.is_empty()
}

/// Whether a text says a model that keeps what this one says.
fn may_replace(
    alloc: Global,
    readings: &mut Readings,
    model: &Model,
    text: &[u8],
) -> Result<bool, OutOfMemory>
    ensures { IfOk result (λ may. may ≡ may_replace model.now text.now) }
{
    match readings.model(alloc, text)? {
        None => Ok(false),
        Some(new) => Ok(first_unkept(model.as_lists(), new.as_lists()).is_none()),
    }
}

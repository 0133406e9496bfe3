//! An object gets values.

ghost use Rattle.std.specs.Prelude.{◌≡◌, List, IfOk};
ghost use Rattle.unit_core.specs.declared.records.Record.{Record as RecordOf};
ghost use Rattle.unit_core.specs.declared.records.Record.TheVariants.{Put};
ghost use Rattle.document_state.specs.Tables.{AreTablesOf};
ghost use Rattle.landscape.specs.Asked.{asked_put, pointers_noted};
ghost use Rattle.landscape.specs.steps.Judged.{JudgedChanges};

use crate::wanted::Changes;
use ale_base::{Change, OutOfMemory};
use application_rules::may_put;
use change_pointers::noted;
use document_state::DocumentTables;
use status_log::Refusal;
use std::alloc::Global;
use unit_core::Record;

/// The record by which an object gets values. `N12` comes exactly where the model in force allows no such Put: its kind is none of the
/// model; its key is empty or is longer than the key field of the kind; there is no field; or a field is none of
/// the kind, is the key field, is given twice, or is shorter than its value. It comes too where no model is in force. `OutOfMemory` comes
/// where a request for memory was refused.
pub(crate) fn put(tables: &DocumentTables, change: &Change) -> Result<Changes, Refusal>
    ensures { (log : List RecordOf) → AreTablesOf log tables.now → JudgedChanges log (asked_put log change.now) result }
{
    let Some(model) = tables.model() else {
        return Err(Refusal::N12);
    };
    let fields = change.fields.as_slice();
    if !may_put(model, change.kind.as_slice(), change.key.as_slice(), fields) {
        return Err(Refusal::N12);
    }
    // A record counts its fields in four bytes. A segment type has fewer fields, and none is given twice, so this is never so.
    if fields.len() > u32::MAX as usize {
        return Err(Refusal::OutOfMemory);
    }
    Ok(Changes {
        next: record_of(change)?,
    })
}

/// How many change pointers are noted where an object gets values, by the model in force; 0 where there is none. `OutOfMemory` comes
/// where a request for memory was refused.
pub(crate) fn pointers_noted(
    alloc: Global,
    tables: &DocumentTables,
    change: &Change,
) -> Result<u64, OutOfMemory>
    ensures { (log : List RecordOf) → AreTablesOf log tables.now → IfOk result (λ count. count ≡ pointers_noted log change.now) }
{
    let Some(model) = tables.model() else {
        return Ok(0);
    };
    let objects = tables.inbound().objects();
    let Change { kind, key, fields } = change;
    let pointers = noted(
        alloc,
        model,
        objects,
        kind.as_slice(),
        key.as_slice(),
        fields.as_slice(),
    )?;
    Ok(pointers.len() as u64)
}

/// The record of a change.
fn record_of(change: &Change) -> Result<Record, OutOfMemory>
    ensures { IfOk result (λ next. next ≡ Put change.now.kind change.now.key change.now.fields) }
{
    let Change { kind, key, fields } = change;
    Ok(Record::Put {
        kind: kind.clone()?,
        key: key.clone()?,
        fields: fields.clone()?,
    })
}

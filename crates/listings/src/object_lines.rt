//! The objects of a system, a line an object.

ghost use Rattle.std.specs.Prelude.{◌≡◌, List, IfOk, map};
ghost use Rattle.unit_core.specs.declared.records.Record.{Record};
ghost use Rattle.document_state.specs.Tables.{AreTablesOf};
ghost use Rattle.listings.specs.ObjectLines.{object_line, object_lines};

use ale_base::{Items, OutOfMemory};
use document_state::DocumentTables;
use object_store::Object;
use status_log::ObjectLine;
use std::alloc::Global;

/// The objects of a system, by kind and key, each with its fields that are not blank by name, all in byte order. It takes the time of the
/// lines. `OutOfMemory` comes where a request for memory was refused.
pub fn objects(alloc: Global, tables: &DocumentTables) -> Result<Items<ObjectLine>, OutOfMemory>
    ensures { (log : List Record) → AreTablesOf log tables.now → IfOk result (λ lines. lines ≡ object_lines log) }
{
    let objects = tables.inbound().objects().list(alloc)?;
    lines_of(alloc, objects)
}

/// The lines of objects.
fn lines_of(alloc: Global, objects: Items<Object>) -> Result<Items<ObjectLine>, OutOfMemory>
    ensures { IfOk result (λ lines. lines ≡ map object_line objects) }
{
    let mut lines = Items::new(alloc);
    for object in objects.into_vec() {
        let Object { kind, key, fields } = object;
        lines.push(ObjectLine { kind, key, fields })?;
    }
    Ok(lines)
}

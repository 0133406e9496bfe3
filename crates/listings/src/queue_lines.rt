//! The queues of a system, a line a queue.

ghost use Rattle.std.specs.Prelude.{◌≡◌, ◌++◌, ℕ, List, Option, IfOk, OnOk, map};
ghost use Rattle.ale_base.specs.Tid.{TidOf};
ghost use Rattle.unit_core.specs.declared.ale_unit.AleUnit.{AleUnit as UnitOf};
ghost use Rattle.unit_core.specs.declared.records.Record.{Record};
ghost use Rattle.document_state.specs.Tables.{AreTablesOf as AreDocumentsOf};
ghost use Rattle.listings.specs.OfSystem.{AreSystemOf};
ghost use Rattle.listings.specs.QueueLines.{AreQueueLines, partner_of, queue_line};

use crate::system_names::name_under;
use ale_base::{Items, OutOfMemory, Way};
use document_state::DocumentTables;
use multi_queue::QueueCount;
use status_log::QueueLine;
use std::alloc::Global;
use system_tables::SystemTables;

/// The queues of a system that hold a unit: the outbound ones by destination and name, each with the name of its destination, and then the
/// inbound ones by name, all names in byte order; with the number of their units and their statuses. It takes the time of the queues that
/// were ever used. `OutOfMemory` comes where a request for memory was refused.
pub fn queues(
    alloc: Global,
    tables: &SystemTables<DocumentTables>,
) -> Result<Items<QueueLine>, OutOfMemory>
    ensures { (committed : List UnitOf) (log : List Record) (sent arrived : TidOf → Option ℕ) → AreSystemOf committed log sent arrived tables.now
        → IfOk result (AreQueueLines committed log sent arrived) }
{
    let outgoing = tables.queue_lines(alloc, Way::Outgoing)?;
    let incoming = tables.queue_lines(alloc, Way::Incoming)?;
    let documents = tables.application();
    let mut lines = Items::new(alloc);
    push_lines(
        alloc,
        documents,
        Way::Outgoing,
        outgoing.as_slice(),
        &mut lines,
    )?;
    push_lines(
        alloc,
        documents,
        Way::Incoming,
        incoming.as_slice(),
        &mut lines,
    )?;
    Ok(lines)
}

/// Adds the lines of the queues of a direction.
fn push_lines(
    alloc: Global,
    documents: &DocumentTables,
    way: Way,
    counts: &[QueueCount],
    lines: &mut Items<QueueLine>,
) -> Result<(), OutOfMemory>
    ensures { (log : List Record) → AreDocumentsOf log documents.now
        → OnOk result (lines.new ≡ lines.old ++ map (queue_line way log) counts.now) }
{
    for count in counts {
        let partner = Items::from_slice(alloc, partner_of(documents, way, count))?;
        lines.push(QueueLine {
            way,
            partner,
            name: count.key.name,
            count: count.count,
            status: count.status,
        })?;
    }
    Ok(())
}

/// The name of the destination of an outbound queue; no bytes for an inbound one.
fn partner_of<'d>(documents: &'d DocumentTables, way: Way, count: &QueueCount) -> &'d [u8]
    ensures { (log : List Record) → AreDocumentsOf log documents.now → result.now ≡ partner_of way log count.now }
{
    match way {
        Way::Outgoing => name_under(documents, count.key.partner),
        Way::Incoming => &[],
    }
}

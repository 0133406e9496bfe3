//! The documents of a system, a line a document.

ghost use Rattle.std.specs.Prelude.{◌≡◌, ◌<◌, ◌++◌, [], suc, List, IfOk, OnOk, slice_get};
ghost use Rattle.std.specs.List.{cons_option};
ghost use Rattle.std.specs.Option.{option_map};
ghost use Rattle.idoc_record.specs.Control.{field_of};
ghost use Rattle.status_log.specs.Statuses.{bare};
ghost use Rattle.unit_core.specs.declared.records.Record.{Record};
ghost use Rattle.outbound_build.specs.Statuses.{Tracked};
ghost use Rattle.outbound_build.specs.Tables.{AreTablesOf as AreSent};
ghost use Rattle.inbound_post.specs.Application.{Application};
ghost use Rattle.inbound_post.specs.Tables.{AreTablesOf as AreApplied};
ghost use Rattle.document_state.specs.Tables.{AreTablesOf};
ghost use Rattle.listings.specs.DocumentLines.{arrived_line, document_lines, numbered, sent_line};

use ale_base::{DocNum, Items, OutOfMemory, Way};
use document_state::DocumentTables;
use idoc_record::{Control, ControlField};
use inbound_post::ApplicationTables;
use outbound_build::OutboundTables;
use status_log::{DocLine, Status, StatusAt};
use std::alloc::Global;

/// The documents of a system: the outbound ones, and then the inbound ones, each by number from 1, with the other system, the message type
/// and the statuses. It takes the time of the lines. `OutOfMemory` comes where a request for memory was refused.
pub fn documents(alloc: Global, tables: &DocumentTables) -> Result<Items<DocLine>, OutOfMemory>
    ensures { (log : List Record) → AreTablesOf log tables.now → IfOk result (λ lines. lines ≡ document_lines log) }
{
    let mut lines = Items::new(alloc);
    push_sent(alloc, tables.outbound(), &mut lines)?;
    push_arrived(alloc, tables.inbound(), &mut lines)?;
    Ok(lines)
}

/// Adds the outbound documents.
fn push_sent(
    alloc: Global,
    outbound: &OutboundTables,
    lines: &mut Items<DocLine>,
) -> Result<(), OutOfMemory>
    ensures { (tracked : Tracked) → AreSent tracked outbound.now
        → OnOk result (lines.new ≡ lines.old ++ numbered (sent_line tracked.statuses) 1 tracked.past.documents) }
{
    for place in 0..outbound.count() {
        push_sent_at(alloc, outbound, place, lines)?;
    }
    Ok(())
}

/// Adds the outbound document at a place, if there is one.
fn push_sent_at(
    alloc: Global,
    outbound: &OutboundTables,
    place: usize,
    lines: &mut Items<DocLine>,
) -> Result<(), OutOfMemory>
    requires { place < usize.MAX }
    ensures { (tracked : Tracked) → AreSent tracked outbound.now
        → OnOk result (lines.new ≡ lines.old ++ cons_option (option_map (sent_line tracked.statuses (suc place)) (slice_get tracked.past.documents place)) []) }
{
    match outbound.document(place) {
        None => Ok(()),
        Some(one) => {
            let number = number_at(place);
            let control = &one.document.control;
            let statuses = outbound.statuses(number);
            let line = line_of(
                alloc,
                Way::Outgoing,
                number,
                control,
                ControlField::Rcvprn,
                statuses,
            )?;
            lines.push(line)
        }
    }
}

/// Adds the inbound documents.
fn push_arrived(
    alloc: Global,
    inbound: &ApplicationTables,
    lines: &mut Items<DocLine>,
) -> Result<(), OutOfMemory>
    ensures { (application : Application) → AreApplied application inbound.now
        → OnOk result (lines.new ≡ lines.old ++ numbered arrived_line 1 application.documents) }
{
    for place in 0..inbound.count() {
        push_arrived_at(alloc, inbound, place, lines)?;
    }
    Ok(())
}

/// Adds the inbound document at a place, if there is one.
fn push_arrived_at(
    alloc: Global,
    inbound: &ApplicationTables,
    place: usize,
    lines: &mut Items<DocLine>,
) -> Result<(), OutOfMemory>
    requires { place < usize.MAX }
    ensures { (application : Application) → AreApplied application inbound.now
        → OnOk result (lines.new ≡ lines.old ++ cons_option (option_map (arrived_line (suc place)) (slice_get application.documents place)) []) }
{
    match inbound.document(place) {
        None => Ok(()),
        Some(one) => {
            let number = number_at(place);
            let control = &one.document.control;
            let statuses = inbound.statuses(number);
            let line = line_of(
                alloc,
                Way::Incoming,
                number,
                control,
                ControlField::Sndprn,
                statuses,
            )?;
            lines.push(line)
        }
    }
}

/// The number of the document at a place.
fn number_at(place: usize) -> DocNum
    requires { place < usize.MAX }
    ensures { result ≡ record { 0 = suc place } }
{
    DocNum(place as u64 + 1)
}

/// The line of a document, whose partner a field of its control record names.
fn line_of(
    alloc: Global,
    way: Way,
    doc: DocNum,
    control: &Control,
    partner: ControlField,
    statuses: &[StatusAt],
) -> Result<DocLine, OutOfMemory>
    ensures { IfOk result (λ line. line ≡ record {
      way = way;
      doc = doc;
      partner = field_of control.now partner;
      message = field_of control.now ControlField.Mestyp;
      statuses = bare statuses.now;
    }) }
{
    Ok(DocLine {
        way,
        doc,
        partner: Items::from_slice(alloc, control.get(partner))?,
        message: Items::from_slice(alloc, control.get(ControlField::Mestyp))?,
        statuses: bare(alloc, statuses)?,
    })
}

/// The statuses alone, without the numbers of their records.
fn bare(alloc: Global, statuses: &[StatusAt]) -> Result<Items<Status>, OutOfMemory>
    ensures { IfOk result (λ alone. alone ≡ bare statuses.now) }
{
    let mut alone = Items::new(alloc);
    for one in statuses {
        alone.push(one.status)?;
    }
    Ok(alone)
}

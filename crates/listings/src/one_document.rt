//! One outbound document, with the places of its segments.

ghost use Rattle.std.specs.Prelude.{◌≡◌, ◌≤◌, ◌<◌, List, IfOk, IfSome, length, map};
ghost use Rattle.std.specs.List.{AllByRecursion};
ghost use Rattle.std.specs.Option.{option_copied, option_map};
ghost use Rattle.unit_core.specs.declared.records.Record.{Record};
ghost use Rattle.outbound_build.specs.Statuses.{Tracked};
ghost use Rattle.outbound_build.specs.Tables.{AreTablesOf as AreSent};
ghost use Rattle.said_models.specs.OfLog.{model_of};
ghost use Rattle.document_state.specs.OfLog.{sent_by};
ghost use Rattle.document_state.specs.Tables.{AreTablesOf};
ghost use Rattle.listings.specs.History.{numbered_in};
ghost use Rattle.listings.specs.OneDocument.{document_shown, placed_lines, shown_under};
ghost use Rattle.listings.specs.Places.{HasDigits};

use crate::ShownDocument;
use crate::places::{MOST_NUMBERED, places_under};
use ale_base::{DocNum, Items, OutOfMemory};
use document_state::DocumentTables;
use idoc_record::{Control, Data, Place};
use outbound_build::{OutDocument, OutboundTables};
use status_log::SegmentLine;
use std::alloc::Global;
use unit_core::RawUnitDoc;

/// The outbound document of a number: its control record, and its data records with their places, by the IDoc type of its message type in
/// the model in force. None exactly where there is no such document. It takes the time of its segments, by the entries of the IDoc type.
///
/// `OutOfMemory` comes where a request for memory was refused, or the document has over 999,999 segments, whose numbers no data record
/// can tell; no legal log has such a document.
pub fn document(
    alloc: Global,
    tables: &DocumentTables,
    number: DocNum,
) -> Result<Option<ShownDocument>, OutOfMemory>
    ensures shown { (log : List Record) → AreTablesOf log tables.now → IfOk result (λ shown. shown ≡ document_shown log number.0) }
    // Each data record is shown, in order.
    ensures whole { (log : List Record) → AreTablesOf log tables.now → IfOk result (λ shown.
        option_map (λ document. map (λ one. one.line) document.lines) shown
        ≡ option_map (λ one. one.document.segments) (numbered_in (sent_by log).past.documents number.0)) }
    // The places fit their data records, as who prints them asks.
    ensures placed { IfOk result (λ shown. IfSome shown (λ document. AllByRecursion (λ one. HasDigits one.place) document.lines)) }
{
    match sent_numbered(tables.outbound(), number) {
        None => Ok(None),
        Some(one) => {
            let shown = shown_under(alloc, tables, &one.document)?;
            Ok(Some(shown))
        }
    }
}

/// The outbound document of a number.
pub(crate) fn sent_numbered(outbound: &OutboundTables, number: DocNum) -> Option<&OutDocument>
    ensures { (tracked : Tracked) → AreSent tracked outbound.now → option_copied result ≡ numbered_in tracked.past.documents number.0 }
{
    if number.0 == 0 {
        return None;
    }
    outbound.document(number.0 as usize - 1)
}

/// A document as it is shown under the model in force.
fn shown_under(
    alloc: Global,
    tables: &DocumentTables,
    document: &RawUnitDoc,
) -> Result<ShownDocument, OutOfMemory>
    ensures shown { (log : List Record) → AreTablesOf log tables.now → IfOk result (λ shown. shown ≡ shown_under (model_of log) document.now) }
    ensures whole { IfOk result (λ shown. map (λ one. one.line) shown.lines ≡ document.now.segments) }
    ensures placed { IfOk result (λ shown. AllByRecursion (λ one. HasDigits one.place) shown.lines) }
{
    if document.segments.len() > MOST_NUMBERED {
        return Err(OutOfMemory);
    }
    let places = places_under(alloc, tables, document)?;
    let lines = placed_lines(alloc, places.as_slice(), document.segments.as_slice())?;
    let control = Control::clone(&document.control)?;
    Ok(ShownDocument { control, lines })
}

/// Data records, each at its place.
fn placed_lines(
    alloc: Global,
    places: &[Place],
    records: &[Data],
) -> Result<Items<SegmentLine>, OutOfMemory>
    requires { length places.now ≡ length records.now }
    ensures { IfOk result (λ lines. lines ≡ placed_lines places.now records.now) }
{
    let mut lines = Items::new(alloc);
    for (at, line) in records.iter().enumerate() {
        let place = places[at];
        let line = line.clone()?;
        lines.push(SegmentLine { place, line })?;
    }
    Ok(lines)
}

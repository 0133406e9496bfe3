//! What became of a document.

ghost use Rattle.std.specs.Prelude.{◌≡◌, List, None, map, IfOk, IfSome};
ghost use Rattle.std.specs.Option.{option_map, unwrap_or};
ghost use Rattle.status_log.specs.Given.{AreGivenIn};
ghost use Rattle.unit_core.specs.declared.records.Record.{Record};
ghost use Rattle.outbound_build.specs.Statuses.{Tracked};
ghost use Rattle.outbound_build.specs.Tables.{AreTablesOf as AreSent};
ghost use Rattle.inbound_post.specs.Application.{Application};
ghost use Rattle.inbound_post.specs.Tables.{AreTablesOf as AreApplied};
ghost use Rattle.document_state.specs.Tables.{AreTablesOf};
ghost use Rattle.listings.specs.History.{AreGivenLines, codes_given, history_line, history_of, numbered_in, statuses_in};

use crate::one_document::sent_numbered;
use ale_base::{DocNum, Items, OutOfMemory, Way};
use document_state::DocumentTables;
use inbound_post::ApplicationTables;
use outbound_build::OutboundTables;
use status_log::{HistoryLine, StatusAt};
use std::alloc::Global;

/// What became of the document of a number that goes this way: its statuses in order, each with the moment of the record that gave it, by
/// the moments of the records of the log. None exactly where there is no such document. It takes the time of the lines.
///
/// `OutOfMemory` comes where a request for memory was refused.
pub fn history(
    alloc: Global,
    tables: &DocumentTables,
    moments: &[Option<u64>],
    way: Way,
    number: DocNum,
) -> Result<Option<Items<HistoryLine>>, OutOfMemory>
    ensures shown { (log : List Record) → AreTablesOf log tables.now → IfOk result (λ lines. lines ≡ history_of log moments.now way number.0) }
    // Each line is of a record of the log that may give it, and they are in the order of these records.
    ensures given { (log : List Record) → AreTablesOf log tables.now
        → IfOk result (λ lines. IfSome lines (AreGivenLines log moments.now way number.0)) }
{
    match statuses_of(tables, way, number) {
        None => Ok(None),
        Some(statuses) => Ok(Some(lines_of(alloc, moments, statuses)?)),
    }
}

/// The statuses of the document of a number that goes this way. None exactly where there is none.
fn statuses_of(tables: &DocumentTables, way: Way, number: DocNum) -> Option<&[StatusAt]>
    ensures are { (log : List Record) → AreTablesOf log tables.now → option_map (λ found. found.now) result ≡ statuses_in log way number.0 }
    ensures given { (log : List Record) → AreTablesOf log tables.now → IfSome result (λ found. AreGivenIn (codes_given way number.0) log found.now) }
{
    match way {
        Way::Outgoing => sent(tables, number),
        Way::Incoming => arrived(tables, number),
    }
}

/// The statuses of an outbound document.
fn sent(tables: &DocumentTables, number: DocNum) -> Option<&[StatusAt]>
    ensures are { (log : List Record) → AreTablesOf log tables.now
        → option_map (λ found. found.now) result ≡ statuses_in log Way.Outgoing number.0 }
    ensures given { (log : List Record) → AreTablesOf log tables.now
        → IfSome result (λ found. AreGivenIn (codes_given Way.Outgoing number.0) log found.now) }
{
    let outbound = tables.outbound();
    match sent_numbered(outbound, number) {
        None => None,
        Some(_) => Some(outbound.statuses(number)),
    }
}

/// The statuses of an inbound document.
fn arrived(tables: &DocumentTables, number: DocNum) -> Option<&[StatusAt]>
    ensures are { (log : List Record) → AreTablesOf log tables.now
        → option_map (λ found. found.now) result ≡ statuses_in log Way.Incoming number.0 }
    ensures given { (log : List Record) → AreTablesOf log tables.now
        → IfSome result (λ found. AreGivenIn (codes_given Way.Incoming number.0) log found.now) }
{
    let inbound = tables.inbound();
    if number.0 == 0 {
        return None;
    }
    match inbound.document(number.0 as usize - 1) {
        None => None,
        Some(_) => Some(inbound.statuses(number)),
    }
}

/// Statuses with the moments of the records that gave them.
fn lines_of(
    alloc: Global,
    moments: &[Option<u64>],
    statuses: &[StatusAt],
) -> Result<Items<HistoryLine>, OutOfMemory>
    ensures { IfOk result (λ lines. lines ≡ map (history_line moments.now) statuses.now) }
{
    let mut lines = Items::new(alloc);
    for one in statuses {
        lines.push(HistoryLine {
            status: one.status,
            moment: moment_of(moments, one.number),
        })?;
    }
    Ok(lines)
}

/// The moment of the record of a number. None where it has none.
fn moment_of(moments: &[Option<u64>], number: u64) -> Option<u64>
    ensures { result ≡ unwrap_or (numbered_in moments.now number) None }
{
    if number == 0 {
        return None;
    }
    match moments.get(number as usize - 1) {
        None => None,
        Some(moment) => *moment,
    }
}

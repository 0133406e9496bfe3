//! The listing that an operator asks for.

ghost use Rattle.std.specs.Prelude.{◌≡◌, ℕ, List, Option, IfOk};
ghost use Rattle.ale_base.specs.Tid.{TidOf};
ghost use Rattle.unit_core.specs.declared.ale_unit.AleUnit.{AleUnit as UnitOf};
ghost use Rattle.unit_core.specs.declared.records.Record.{Record};
ghost use Rattle.document_state.specs.Tables.{AreTablesOf as AreDocumentsOf};
ghost use Rattle.status_log.specs.declared.listing.Listing.TheVariants.{Docs, Units, Objects};
ghost use Rattle.listings.specs.DocumentLines.{document_lines};
ghost use Rattle.listings.specs.OneDocument.{document_shown};
ghost use Rattle.listings.specs.History.{history_of};
ghost use Rattle.listings.specs.UnitLines.{unit_lines};
ghost use Rattle.listings.specs.ObjectLines.{object_lines};
ghost use Rattle.listings.specs.Listings.{AreQueuesListed, DocumentListed, HasPlaces, HistoryListed, ListedAs, ListedOr, system_of};
ghost use Rattle.listings.specs.OfSystem.{AreSystemOf};

use crate::{document, documents, history, objects, queues, units};
use ale_base::{DocNum, SystemNo, Way};
use document_state::DocumentTables;
use status_log::{Listing, Refusal, Show};
use std::alloc::Global;
use system_tables::SystemTables;

/// The system of which a listing is asked for.
pub fn system_of(show: &Show) -> SystemNo
    ensures { result ≡ system_of show.now }
{
    match show {
        Show::Docs(system)
        | Show::Doc(system, _)
        | Show::History(system, _, _)
        | Show::Units(system)
        | Show::Queues(system)
        | Show::Objects(system) => *system,
    }
}

/// The listing that is asked for, by the tables of the system of which it is asked, and by the moments of the records of its log. It takes
/// the time of the functions of its lines.
///
/// `N3` comes exactly where a document is asked for that is not there; `OutOfMemory` as from those functions; no other.
pub fn listing(
    alloc: Global,
    tables: &SystemTables<DocumentTables>,
    moments: &[Option<u64>],
    show: &Show,
) -> Result<Listing, Refusal>
    ensures listed { (committed : List UnitOf) (log : List Record) (sent arrived : TidOf → Option ℕ) → AreSystemOf committed log sent arrived tables.now
        → ListedAs committed log moments.now sent arrived show.now result }
    ensures placed { IfOk result HasPlaces }
{
    let documents = tables.application();
    match show {
        Show::Docs(_) => documents_listed(alloc, documents),
        Show::Doc(_, number) => document_listed(alloc, documents, *number),
        Show::History(_, way, number) => history_listed(alloc, documents, moments, *way, *number),
        Show::Units(_) => units_listed(alloc, tables),
        Show::Queues(_) => queues_listed(alloc, tables),
        Show::Objects(_) => objects_listed(alloc, documents),
    }
}

/// The listing of the documents of a system.
fn documents_listed(alloc: Global, tables: &DocumentTables) -> Result<Listing, Refusal>
    ensures listed { (log : List Record) → AreDocumentsOf log tables.now → ListedOr (λ listing. listing ≡ Docs (document_lines log)) result }
    ensures placed { IfOk result HasPlaces }
{
    match documents(alloc, tables) {
        Ok(lines) => Ok(Listing::Docs(lines)),
        Err(_) => Err(Refusal::OutOfMemory),
    }
}

/// The listing of an outbound document.
fn document_listed(
    alloc: Global,
    tables: &DocumentTables,
    number: DocNum,
) -> Result<Listing, Refusal>
    ensures listed { (log : List Record) → AreDocumentsOf log tables.now → DocumentListed (document_shown log number.0) result }
    ensures placed { IfOk result HasPlaces }
{
    match document(alloc, tables, number) {
        Ok(Some(shown)) => Ok(Listing::Doc(shown.control, shown.lines)),
        Ok(None) => Err(Refusal::N3),
        Err(_) => Err(Refusal::OutOfMemory),
    }
}

/// The listing of what became of a document.
fn history_listed(
    alloc: Global,
    tables: &DocumentTables,
    moments: &[Option<u64>],
    way: Way,
    number: DocNum,
) -> Result<Listing, Refusal>
    ensures listed { (log : List Record) → AreDocumentsOf log tables.now → HistoryListed (history_of log moments.now way number.0) result }
    ensures placed { IfOk result HasPlaces }
{
    match history(alloc, tables, moments, way, number) {
        Ok(Some(lines)) => Ok(Listing::History(lines)),
        Ok(None) => Err(Refusal::N3),
        Err(_) => Err(Refusal::OutOfMemory),
    }
}

/// The listing of the units of a system.
fn units_listed(alloc: Global, tables: &SystemTables<DocumentTables>) -> Result<Listing, Refusal>
    ensures listed { (committed : List UnitOf) (log : List Record) (sent arrived : TidOf → Option ℕ) → AreSystemOf committed log sent arrived tables.now
        → ListedOr (λ listing. listing ≡ Units (unit_lines committed log)) result }
    ensures placed { IfOk result HasPlaces }
{
    match units(alloc, tables) {
        Ok(lines) => Ok(Listing::Units(lines)),
        Err(_) => Err(Refusal::OutOfMemory),
    }
}

/// The listing of the queues of a system.
fn queues_listed(alloc: Global, tables: &SystemTables<DocumentTables>) -> Result<Listing, Refusal>
    ensures listed { (committed : List UnitOf) (log : List Record) (sent arrived : TidOf → Option ℕ) → AreSystemOf committed log sent arrived tables.now
        → ListedOr (AreQueuesListed committed log sent arrived) result }
    ensures placed { IfOk result HasPlaces }
{
    match queues(alloc, tables) {
        Ok(lines) => Ok(Listing::Queues(lines)),
        Err(_) => Err(Refusal::OutOfMemory),
    }
}

/// The listing of the objects of a system.
fn objects_listed(alloc: Global, tables: &DocumentTables) -> Result<Listing, Refusal>
    ensures listed { (log : List Record) → AreDocumentsOf log tables.now → ListedOr (λ listing. listing ≡ Objects (object_lines log)) result }
    ensures placed { IfOk result HasPlaces }
{
    match objects(alloc, tables) {
        Ok(lines) => Ok(Listing::Objects(lines)),
        Err(_) => Err(Refusal::OutOfMemory),
    }
}

//! Where the segments of a document stand in it.

ghost use Rattle.std.specs.Prelude.{◌≡◌, ◌<◌, ◌≤◌, ◌+◌, ◌++◌, suc, List, IfOk, OnOk, length};
ghost use Rattle.std.specs.List.{AllByRecursion};
ghost use Rattle.unit_core.specs.declared.records.Record.{Record};
ghost use Rattle.idoc_tree.specs.Forest.{preorder};
ghost use Rattle.idoc_tree.specs.Nodes.{forest_of};
ghost use Rattle.said_models.specs.OfLog.{model_of};
ghost use Rattle.document_state.specs.Tables.{AreTablesOf};
ghost use Rattle.listings.specs.Places.{HasDigits, places_by, places_in, places_under, root_places};
ghost use Rattle.listings.specs.steps.Levels.{LevelsWithin};

use ale_base::{Items, OutOfMemory};
use dist_model::Model;
use document_state::DocumentTables;
use idoc_reading::{Reading, read_by_type};
use idoc_record::{Data, Place};
use idoc_tree::Node;
use std::alloc::Global;
use unit_core::RawUnitDoc;

/// The most segments of which SEGNUM can tell the number.
pub(crate) const MOST_NUMBERED: usize = 999_999;

/// The places of the segments of a document, in order, under the model in force.
pub(crate) fn places_under(
    alloc: Global,
    tables: &DocumentTables,
    document: &RawUnitDoc,
) -> Result<Items<Place>, OutOfMemory>
    requires { length document.now.segments ≤ MOST_NUMBERED }
    ensures are { (log : List Record) → AreTablesOf log tables.now → IfOk result (λ places. places ≡ places_under (model_of log) document.now) }
    ensures each { IfOk result (λ places. length places ≡ length document.now.segments) }
    ensures digits { IfOk result (λ places. AllByRecursion HasDigits places) }
{
    match tables.model() {
        None => root_places(alloc, document.segments.as_slice()),
        Some(model) => places_by(alloc, model, document),
    }
}

/// The places of the segments of a document, in order, as it is read by its message type.
fn places_by(
    alloc: Global,
    model: &Model,
    document: &RawUnitDoc,
) -> Result<Items<Place>, OutOfMemory>
    requires { length document.now.segments ≤ MOST_NUMBERED }
    ensures are { IfOk result (λ places. places ≡ places_by model.now document.now) }
    ensures each { IfOk result (λ places. length places ≡ length document.now.segments) }
    ensures digits { IfOk result (λ places. AllByRecursion HasDigits places) }
{
    let records = document.segments.as_slice();
    let reading = read_by_type(alloc, model, &document.control, records)?;
    match reading {
        Reading::Read(_, read) => {
            let nodes = read.forest.as_slice();
            places_in(alloc, nodes)
        }
        _ => root_places(alloc, records),
    }
}

/// The places of the segments of a document that was read.
fn places_in(alloc: Global, nodes: &[Node]) -> Result<Items<Place>, OutOfMemory>
    requires few { length (preorder (forest_of nodes.now)) ≤ MOST_NUMBERED }
    requires levels { LevelsWithin 1 (forest_of nodes.now) }
    ensures are { IfOk result (λ places. places ≡ places_in 1 0 1 (forest_of nodes.now)) }
    ensures each { IfOk result (λ places. length places ≡ length (preorder (forest_of nodes.now))) }
    ensures digits { IfOk result (λ places. AllByRecursion HasDigits places) }
{
    let mut places = Items::new(alloc);
    push_places(nodes, 0, 1, &mut places)?;
    Ok(places)
}

/// Adds the places of some nodes, with all below them. Above them is the segment of a number, and they are at this level.
fn push_places(
    nodes: &[Node],
    above: u32,
    level: u8,
    places: &mut Items<Place>,
) -> Result<(), OutOfMemory>
    requires few { length places.old + length (preorder (forest_of nodes.now)) ≤ MOST_NUMBERED }
    requires levels { LevelsWithin level (forest_of nodes.now) }
    ensures { OnOk result (places.new ≡ places.old ++ places_in (suc (length places.old)) above level (forest_of nodes.now)) }
{
    for node in nodes {
        let segnum = places.len() as u32 + 1;
        places.push(Place {
            segnum,
            parent: above,
            level,
        })?;
        push_places(&node.children, segnum, level + 1, places)?;
    }
    Ok(())
}

/// The places of data records that hang together in no known way.
fn root_places(alloc: Global, records: &[Data]) -> Result<Items<Place>, OutOfMemory>
    requires { length records.now ≤ MOST_NUMBERED }
    ensures are { IfOk result (λ places. places ≡ root_places 1 records.now) }
    ensures each { IfOk result (λ places. length places ≡ length records.now) }
    ensures digits { IfOk result (λ places. AllByRecursion HasDigits places) }
{
    let mut places = Items::new(alloc);
    for at in 0..records.len() {
        places.push(Place {
            segnum: at as u32 + 1,
            parent: 0,
            level: 1,
        })?;
    }
    Ok(places)
}

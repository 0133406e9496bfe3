//! What is found by a row of a model: what its groups keep, what it sends of a master, and the queues.

ghost use Rattle.std.specs.Prelude.{◌<◌, IfOk, length};
ghost use Rattle.segment_defs.specs.IdocType.{IsIdocType};
ghost use Rattle.dist_model.specs.Model.{IsModel};
ghost use Rattle.idoc_tree.specs.Forest.{AllNodes};
ghost use Rattle.idoc_tree.specs.Lines.{IsNode};
ghost use Rattle.idoc_tree.specs.Nodes.{forest_of};

use crate::rules::{NO_DOCUMENT, NO_SUCH_NUMBER};
use crate::telling::{fault_text, nodes_text, nothing, put_control, put_nodes, queues_text};
use ale_base::DocNum;
use case_form::{LineEnd, Text, number_of};
use dist_model::{Lists, Model, RowNo};
use filter_objects::keep;
use idoc_reading::type_for;
use idoc_record::{Control, Data};
use idoc_tree::{Doc, SyntaxFault, build};
use outbound_build::{BuildFault, sent};
use segment_defs::{Definitions, IdocType};
use std::alloc::Global;

/// The master that records make by the message type of a row, with this control record.
pub(crate) fn master_of(
    alloc: Global,
    model: &Model,
    row: RowNo,
    control: Control,
    records: &[Data],
) -> Result<Doc, LineEnd>
    requires { row < length model.now.rows }
    ensures { IfOk result (λ doc. AllNodes (IsNode model.now.definitions) (forest_of doc.forest.items)) }
{
    let lists = model.as_lists();
    let ty = type_of_row(lists, row, &control)?;
    match build(alloc, &lists.definitions, ty, control, records) {
        Ok(doc) => Ok(doc),
        Err(SyntaxFault::OutOfMemory) => Err(LineEnd::OutOfMemory),
        Err(_) => Err(NO_DOCUMENT.into()),
    }
}

/// `keeps LINE`: the segments that the groups of the last row of the model keep of the master, with this line behind the model's
/// text; or `nothing`.
pub(crate) fn keeps(
    alloc: Global,
    model: &Model,
    row: RowNo,
    master: &Doc,
) -> Result<Vec<u8>, LineEnd>
    requires row { row < length model.now.rows }
    requires nodes { AllNodes (IsNode model.now.definitions) (forest_of master.now.forest.items) }
{
    let lists = model.as_lists();
    let ty = type_of_row(lists, row, &master.control)?;
    let kept = keep(alloc, model, row, ty, master.forest.as_slice())?;
    nodes_text(alloc, &lists.definitions, kept.as_slice())
}

/// `leaves ROW`: the segments that a row of the model, counted from 0, sends of the master; or `nothing`.
pub(crate) fn leaves(
    alloc: Global,
    model: &Model,
    row: RowNo,
    master: &Doc,
) -> Result<Vec<u8>, LineEnd>
    requires row { row < length model.now.rows }
    requires nodes { AllNodes (IsNode model.now.definitions) (forest_of master.now.forest.items) }
{
    match sent(alloc, model, row, DocNum(1), master)? {
        None => nothing(alloc),
        Some(doc) => nodes_text(alloc, &model.as_lists().definitions, doc.forest.as_slice()),
    }
}

/// `sends ROW NUMBER`: what a row of the model sends of the master, as the document of this number: the fields of its control
/// record that are not blank, and its segments; or `nothing`.
pub(crate) fn sends(
    alloc: Global,
    model: &Model,
    row: RowNo,
    number: &[u8],
    master: &Doc,
) -> Result<Vec<u8>, LineEnd>
    requires row { row < length model.now.rows }
    requires nodes { AllNodes (IsNode model.now.definitions) (forest_of master.now.forest.items) }
{
    let number = DocNum(u64::from(number_of(number)?));
    match sent(alloc, model, row, number, master)? {
        None => nothing(alloc),
        Some(doc) => document_text(alloc, &model.as_lists().definitions, &doc),
    }
}

/// The fields of a document's control record that are not blank, and its segments.
fn document_text(alloc: Global, definitions: &Definitions, doc: &Doc) -> Result<Vec<u8>, LineEnd> {
    let mut text = Text::new(alloc);
    put_control(&mut text, &doc.control)?;
    put_nodes(&mut text, definitions, doc.forest.as_slice(), 0)?;
    Ok(text.into_bytes())
}

/// `queues ROW`: the queues by the rules of a row's profile for the master, a line each, as `out NAME` and `in NAME`; or why a rule
/// makes no name: `too long`, `bad byte` or `no byte`.
pub(crate) fn queues(
    alloc: Global,
    model: &Model,
    row: RowNo,
    master: &Doc,
) -> Result<Vec<u8>, LineEnd>
    requires row { row < length model.now.rows }
    requires nodes { AllNodes (IsNode model.now.definitions) (forest_of master.now.forest.items) }
{
    match outbound_build::queues(alloc, model, row, master) {
        Ok(lists) => queues_text(alloc, &lists),
        Err(BuildFault::OutOfMemory) => Err(LineEnd::OutOfMemory),
        Err(BuildFault::Name(fault)) => fault_text(alloc, fault),
    }
}

/// The IDoc type by which a master with this control record is read that a row sends.
fn type_of_row<'l>(lists: &'l Lists, row: RowNo, control: &Control) -> Result<&'l IdocType, LineEnd>
    requires model { IsModel lists.now }
    requires row { row < length lists.now.rows }
    ensures { IfOk result (λ ty. IsIdocType lists.now.definitions ty.now) }
{
    let number = row.0;
    let message = lists.rows[usize::from(number)].message;
    let place = message.0;
    if usize::from(place) >= lists.messages.len() {
        return Err(NO_SUCH_NUMBER.into());
    }
    Ok(type_for(lists, message, control))
}

//! What is sent of a master to one receiver.

ghost use Rattle.std.specs.Prelude.{◌≡◌, ◌<◌, ◌↔◌, ◌⊎◌, List, None, Some, Contains, IfOk, IfSome, length};
ghost use Rattle.segment_defs.specs.declared.idoc_type.TypePlace.{TypePlace};
ghost use Rattle.std.specs.Option.{option_map};
ghost use Rattle.dist_model.specs.Model.{outbound_of};
ghost use Rattle.dist_model.specs.Outbound.{LeavesWhole};
ghost use Rattle.idoc_tree.specs.Forest.{AllNodes, no_trees};
ghost use Rattle.idoc_tree.specs.Lines.{IsNode, IsFitted};
ghost use Rattle.idoc_tree.specs.Nodes.{forest_of};
ghost use Rattle.filter_objects.specs.Kept.{IsKeptPart};
ghost use Rattle.filter_objects.specs.Passing.{groups_of};
ghost use Rattle.idoc_reading.specs.Document.{AreEntries, IsOfEntries};
ghost use Rattle.outbound_build.specs.ControlRecord.{HasBlanks};
ghost use Rattle.outbound_build.specs.Document.{document_of};
ghost use Rattle.outbound_build.specs.Sent.{IsAdaptedPart, adapted, entries_of, kept_by, made_of, sent};

use crate::control_record::control_of;
use ale_base::{DocNum, OutOfMemory};
use dist_model::{Model, Outbound, RowNo};
use filter_objects::keep;
use idoc_reading::type_for;
use idoc_record::Control;
use idoc_tree::{Doc, Node};
use std::alloc::Global;
use version_reduce::{convert_fields, reduce_message, remove_segments, to_release};

/// What is sent of a master by a row of the model, as the document of this number: what the row's groups keep of it, with
/// the segments, fields, values and definitions that the row's profile says, and a control record of its own, in which
/// DOCREL, EXPRSS, TEST, CIMTYP, STD, STDVRS, STDMES, SNDPOR, SNDPFC, SNDSAD, SNDLAD, RCVPFC, RCVSAD and RCVLAD are blank,
/// whatever the master has there. None exactly where the largest part that the groups keep is nothing.
///
/// It takes a time that grows with the segments of the master.
pub fn sent(
    alloc: Global,
    model: &Model,
    row: RowNo,
    number: DocNum,
    master: &Doc,
) -> Result<Option<Doc>, OutOfMemory>
    requires row { row < length model.now.rows }
    requires nodes { AllNodes (IsNode model.now.definitions) (forest_of master.now.forest.items) }
    ensures document { IfOk result (λ made. option_map document_of made ≡ sent model.now row number.0 (document_of master.now)) }
    // A master that is read by the row's message type makes a document by the same entries.
    ensures of_entries { IsOfEntries model.now.definitions (entries_of model.now row master.now.control) (forest_of master.now.forest.items)
        → IfOk result (λ made. IfSome made (λ doc.
        IsOfEntries model.now.definitions (entries_of model.now row master.now.control) (forest_of doc.forest.items))) }
    ensures kept { IfOk result (λ made. (made ≡ None)
        ↔ IsKeptPart model.now (entries_of model.now row master.now.control)
        (groups_of model.now row) (forest_of master.now.forest.items) no_trees) }
    ensures part { IfOk result (λ made. IfSome made (λ doc. IsAdaptedPart model.now row (document_of master.now) (forest_of doc.forest.items))) }
    ensures blank { IfOk result (λ made. IfSome made (λ doc. HasBlanks doc.control)) }
{
    // The rules of a model say that nothing mandatory goes below what stays.
    let _rules = model.as_lists();
    let profile = model.outbound(row);
    let kept = kept_by(alloc, model, row, profile, master)?;
    let made = made_of(alloc, model, profile, number, &master.control, kept)?;
    Ok(made)
}

/// What the groups of a row keep of a master, by the IDoc type by which that is read.
fn kept_by(
    alloc: Global,
    model: &Model,
    row: RowNo,
    profile: &Outbound,
    master: &Doc,
) -> Result<Vec<Node>, OutOfMemory>
    requires row { row < length model.now.rows }
    requires profile { outbound_of model.now row ≡ Some profile.now }
    requires nodes { AllNodes (IsNode model.now.definitions) (forest_of master.now.forest.items) }
    ensures part { IfOk result (λ kept. forest_of kept.items ≡ kept_by model.now row (document_of master.now)) }
    ensures of_entries { IsOfEntries model.now.definitions (entries_of model.now row master.now.control) (forest_of master.now.forest.items)
        → IfOk result (λ kept. (forest_of kept.items ≡ no_trees)
        ⊎ IsOfEntries model.now.definitions (entries_of model.now row master.now.control) (forest_of kept.items)) }
{
    let ty = type_for(model.as_lists(), profile.message, &master.control);
    let kept = keep(alloc, model, row, ty, master.forest.as_slice())?;
    Ok(kept)
}

/// The document of this number that a profile makes of what is kept of a master. None where nothing is kept.
fn made_of(
    alloc: Global,
    model: &Model,
    profile: &Outbound,
    number: DocNum,
    control: &Control,
    kept: Vec<Node>,
) -> Result<Option<Doc>, OutOfMemory>
    requires { Contains model.now.outbound profile.now }
    ensures document { IfOk result (λ made. option_map document_of made
        ≡ made_of model.now profile.now number.0 control.now (forest_of kept.items)) }
    ensures of_entries { (entries : List TypePlace) → AreEntries model.now.definitions entries → LeavesWhole model.now.definitions profile.now entries
        → (forest_of kept.items ≡ no_trees) ⊎ IsOfEntries model.now.definitions entries (forest_of kept.items)
        → IfOk result (λ made. IfSome made (λ doc. IsOfEntries model.now.definitions entries (forest_of doc.forest.items))) }
    ensures blank { IfOk result (λ made. IfSome made (λ doc. HasBlanks doc.control)) }
{
    if kept.is_empty() {
        return Ok(None);
    }
    let control = control_of(model.as_lists(), profile, number, control);
    let forest = adapted(alloc, model, profile, kept)?;
    Ok(Some(Doc { control, forest }))
}

/// What a profile makes of a forest.
fn adapted(
    alloc: Global,
    model: &Model,
    profile: &Outbound,
    forest: Vec<Node>,
) -> Result<Vec<Node>, OutOfMemory>
    requires { Contains model.now.outbound profile.now }
    ensures map { IfOk result (λ left. forest_of left.items ≡ adapted model.now profile.now (forest_of forest.items)) }
    ensures of_entries { (entries : List TypePlace) → AreEntries model.now.definitions entries → LeavesWhole model.now.definitions profile.now entries
        → IsOfEntries model.now.definitions entries (forest_of forest.items)
        → IfOk result (λ left. IsOfEntries model.now.definitions entries (forest_of left.items)) }
{
    let left = remove_segments(alloc, model, profile, forest)?;
    let left = reduce_message(alloc, model, profile, left)?;
    let left = convert_fields(alloc, model, profile, left)?;
    let left = to_release(alloc, model, profile, left)?;
    Ok(left)
}

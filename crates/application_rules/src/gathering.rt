//! What a gathering makes.

ghost use Rattle.std.specs.Prelude.{◌≡◌, ◌<◌, IfOk, length};
ghost use Rattle.std.specs.Option.{option_map};
ghost use Rattle.segment_defs.specs.Definitions.{AreDefinitions};
ghost use Rattle.idoc_tree.specs.Forest.{AllNodes};
ghost use Rattle.idoc_tree.specs.Lines.{IsNode};
ghost use Rattle.idoc_tree.specs.Nodes.{forest_of};
ghost use Rattle.outbound_build.specs.Document.{carried, document_of};
ghost use Rattle.change_pointers.specs.Master.{object_master};
ghost use Rattle.application_rules.specs.Gathered.{carried_master, gathered};

use ale_base::{Items, OutOfMemory};
use change_pointers::{ObjectKey, Pointers, master_of};
use dist_model::{MessageNo, Model};
use idoc_tree::{Doc, flatten};
use object_store::Objects;
use segment_defs::Definitions;
use std::alloc::Global;
use unit_core::{RawUnitDoc, Shared};

/// The documents of one gathering of a message type of the model: the masters of the objects of which a pointer of it waits, in
/// byte order of their kinds and keys, as the objects are now. An object that is not there gives none. Nothing is cleared.
///
/// `OutOfMemory` comes where a request for memory was refused.
pub fn gathered(
    alloc: Global,
    model: &Model,
    objects: &Objects,
    pointers: &Pointers,
    message: MessageNo,
) -> Result<Items<RawUnitDoc>, OutOfMemory>
    requires { message < length model.now.messages }
    ensures { IfOk result (λ docs. docs ≡ gathered model.now objects.now pointers.now message) }
{
    let mut docs = Items::new(alloc);
    let pending = pointers.pending(alloc, message)?;
    let keys = pending.as_slice();
    for key in keys {
        if let Some(doc) = gathered_of(alloc, model, objects, message, key)? {
            docs.push(doc)?;
        }
    }
    Ok(trimmed(docs))
}

/// The documents, in a list with no room for more: a log keeps them.
fn trimmed(docs: Items<RawUnitDoc>) -> Items<RawUnitDoc>
    ensures { result ≡ docs }
{
    let mut docs = docs.into_vec();
    docs.shrink_to_fit();
    Items::from_vec(docs)
}

/// The master of an object as a Commit carries it. None where the object is not there.
fn gathered_of(
    alloc: Global,
    model: &Model,
    objects: &Objects,
    message: MessageNo,
    key: &ObjectKey,
) -> Result<Option<RawUnitDoc>, OutOfMemory>
    requires { message < length model.now.messages }
    ensures { IfOk result (λ doc. doc
        ≡ option_map (carried_master model.now.definitions) (object_master model.now message objects.now key.now)) }
{
    match master_of(alloc, model, objects, message, key)? {
        None => Ok(None),
        Some(master) => {
            let lists = model.as_lists();
            let doc = carried(alloc, &lists.definitions, &master)?;
            Ok(Some(doc))
        }
    }
}

/// A document as a Commit carries it.
fn carried(alloc: Global, definitions: &Definitions, doc: &Doc) -> Result<RawUnitDoc, OutOfMemory>
    requires definitions { AreDefinitions definitions.now }
    requires nodes { AllNodes (IsNode definitions.now) (forest_of doc.now.forest.items) }
    ensures { IfOk result (λ document. document ≡ carried definitions.now (document_of doc.now)) }
{
    let mut segments = flatten(alloc, definitions, doc)?;
    // A log keeps the document, so its list gives back the room that it does not use.
    segments.shrink_to_fit();
    Ok(RawUnitDoc {
        control: Shared::new(alloc, doc.control.clone()?)?,
        segments: Items::from_vec(segments),
    })
}

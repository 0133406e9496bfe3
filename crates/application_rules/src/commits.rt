//! Which Commits may follow a log.

ghost use Rattle.std.specs.Prelude.{◌≡◌, ◌<◌, IfOk, IfSome, length, position};
ghost use Rattle.std.specs.List.{list_all};
ghost use Rattle.std.specs.Cmp.Lexicographic.{pointwise};
ghost use Rattle.ale_base.specs.Text.{is_text};
ghost use Rattle.dist_model.specs.Model.{IsModel};
ghost use Rattle.unit_core.specs.SameUnit.{is_same_doc};
ghost use Rattle.application_rules.specs.Commits.{are_gathered, are_of, may_be_committed, may_commit, own_named};

use crate::MasterFault;
use crate::gathering::gathered;
use crate::masters::check_master;
use ale_base::{Items, OutOfMemory};
use change_pointers::Pointers;
use dist_model::{Lists, MessageNo, Model};
use object_store::Objects;
use std::alloc::Global;
use unit_core::RawUnitDoc;

/// The most segments of a document of a Commit.
pub const MOST_SEGMENTS: usize = 10_000;

/// Whether a Commit may follow a log whose model, objects and pointers these are. Without an origin it has one document. With the
/// name of a message type as its origin, which is not that of a reduced one, it has at least one, and they are those that a
/// gathering of the message type makes. In both cases each document may be a master and has at most `MOST_SEGMENTS` segments.
/// How many units there would be is not looked at.
///
/// `OutOfMemory` comes where a request for memory was refused.
pub fn may_commit(
    alloc: Global,
    model: &Model,
    objects: &Objects,
    pointers: &Pointers,
    origin: &Option<Items<u8>>,
    docs: &[RawUnitDoc],
) -> Result<bool, OutOfMemory>
    ensures { IfOk result (λ may. may ≡ may_commit model.now objects.now pointers.now origin.now docs.now) }
{
    if !are_of(alloc, model, objects, pointers, origin, docs)? {
        return Ok(false);
    }
    may_all_be_committed(alloc, model, docs)
}

/// Whether documents are what their origin says.
fn are_of(
    alloc: Global,
    model: &Model,
    objects: &Objects,
    pointers: &Pointers,
    origin: &Option<Items<u8>>,
    docs: &[RawUnitDoc],
) -> Result<bool, OutOfMemory>
    ensures { IfOk result (λ are. are ≡ are_of model.now objects.now pointers.now origin.now docs.now) }
{
    match origin {
        None => Ok(docs.len() == 1),
        Some(name) => match own_named(model.as_lists(), name.as_slice()) {
            None => Ok(false),
            Some(message) => are_gathered(alloc, model, objects, pointers, message, docs),
        },
    }
}

/// The message type whose own name this is.
fn own_named(lists: &Lists, name: &[u8]) -> Option<MessageNo>
    requires { IsModel lists.now }
    ensures named { result ≡ own_named name.now lists.now }
    ensures within { IfSome result (λ message. message < length lists.now.messages) }
{
    match place_named(lists, name) {
        None => None,
        Some(place) => Some(MessageNo(place as u16)),
    }
}

fn place_named(lists: &Lists, name: &[u8]) -> Option<usize>
    ensures place { result ≡ position (λ message. is_text name.now message.name) lists.now.messages }
    ensures within { IfSome result (λ place. place < length lists.now.messages) }
{
    lists
        .messages
        .iter()
        .position(|message| name == message.name.as_slice())
}

/// Whether there is a document, and they are those of a gathering of a message type.
fn are_gathered(
    alloc: Global,
    model: &Model,
    objects: &Objects,
    pointers: &Pointers,
    message: MessageNo,
    docs: &[RawUnitDoc],
) -> Result<bool, OutOfMemory>
    requires { message < length model.now.messages }
    ensures { IfOk result (λ are. are ≡ are_gathered model.now objects.now pointers.now docs.now message) }
{
    if docs.is_empty() {
        return Ok(false);
    }
    let made = gathered(alloc, model, objects, pointers, message)?;
    Ok(are_same(docs, made.as_slice()))
}

/// Whether two lists of documents are the same, byte for byte.
fn are_same(docs: &[RawUnitDoc], others: &[RawUnitDoc]) -> bool
    ensures { result ≡ pointwise is_same_doc docs.now others.now }
{
    *docs == *others
}

/// Whether each of these documents may be committed.
fn may_all_be_committed(
    alloc: Global,
    model: &Model,
    docs: &[RawUnitDoc],
) -> Result<bool, OutOfMemory>
    ensures { IfOk result (λ are. are ≡ list_all (may_be_committed model.now) docs.now) }
{
    for doc in docs {
        if !may_be_committed(alloc, model, doc)? {
            return Ok(false);
        }
    }
    Ok(true)
}

/// Whether a document may be committed: it has not too many segments, and may be a master.
fn may_be_committed(alloc: Global, model: &Model, doc: &RawUnitDoc) -> Result<bool, OutOfMemory>
    ensures { IfOk result (λ may. may ≡ may_be_committed model.now doc.now) }
{
    if doc.segments.len() > MOST_SEGMENTS {
        return Ok(false);
    }
    match check_master(alloc, model, doc) {
        Ok(()) => Ok(true),
        Err(MasterFault::OutOfMemory) => Err(OutOfMemory),
        Err(_) => Ok(false),
    }
}

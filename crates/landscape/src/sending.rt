//! Documents are committed: a master that is sent, objects that are gathered, and what waits to be dispatched.

ghost use Rattle.std.specs.Prelude.{◌≡◌, ◌≤◌, ◌<◌, List, [], ◌∷◌, Some, None, IfOk, length, slice_get, true};
ghost use Rattle.std.specs.List.{AllByRecursion};
ghost use Rattle.unit_core.specs.declared.records.Record.{Record as RecordOf};
ghost use Rattle.unit_core.specs.declared.records.Record.TheVariants.{Commit, Dispatch};
ghost use Rattle.unit_codec.specs.Condition.{IsDocument, IsName, IsWritable};
ghost use Rattle.dist_model.specs.declared.lists.Lists.{Lists as ListsOf};
ghost use Rattle.dist_model.specs.declared.message.Message.{Message as MessageOf};
ghost use Rattle.said_models.specs.OfLog.{model_of};
ghost use Rattle.trfc_protocol.specs.Legal.{is_commit};
ghost use Rattle.application_rules.specs.Masters.{master_fault};
ghost use Rattle.document_state.specs.Tables.{AreTablesOf};
ghost use Rattle.document_state.specs.OfLog.{sent_by};
ghost use Rattle.landscape.specs.Asked.{asked_send, asked_gather, asked_dispatch, gathered_for, gathered_or_none, with_room};
ghost use Rattle.landscape.specs.steps.Judged.{IsMaster, JudgedCommits, JudgedCommitsOrNone};

use crate::wanted::Commits;
use ale_base::{Items, OutOfMemory, SystemNo};
use application_rules::{MOST_SEGMENTS, MasterFault, check_master, gathered};
use dist_model::{Lists, Message, MessageNo, Model};
use document_state::DocumentTables;
use outbound_build::AddFault;
use status_log::Refusal;
use std::alloc::Global;
use unit_core::{RawUnitDoc, Record};

/// The record by which the system of this number sends a master, which has at most `MOST_SEGMENTS` segments.
///
/// `N12` comes exactly where MESTYP or IDOCTYP is refused, or no model is in force; `N4` else where the data records are no document of
/// its type; and `N11` else where there would be over 65,536 units. `OutOfMemory` comes where a request for memory was refused.
pub(crate) fn send(
    alloc: Global,
    tables: &DocumentTables,
    system: SystemNo,
    master: &RawUnitDoc,
) -> Result<Commits, Refusal>
    requires short { length master.now.segments ≤ MOST_SEGMENTS }
    ensures { (log : List RecordOf) → AreTablesOf log tables.now → (sent_by log).past.system ≡ system
        → JudgedCommits log (asked_send log master.now) result }
{
    let Some(model) = tables.model() else {
        return Err(Refusal::N12);
    };
    judge(alloc, model, master)?;
    let next = commit_of(alloc, master)?;
    with_room(alloc, tables, system, next)
}

/// The record by which the system of this number gathers the objects that wait for the message type of a name. None exactly where no
/// object that waits is there, or the message type lists no fields whose changes make documents.
///
/// `N12` comes exactly where the name stands for no message type, or no model is in force, and `N11` else where there would be over
/// 65,536 units. `OutOfMemory` comes where a request for memory was refused, or there would be over 4,294,967,295 documents, which a
/// record can't count.
pub(crate) fn gather(
    alloc: Global,
    tables: &DocumentTables,
    system: SystemNo,
    name: &[u8],
) -> Result<Option<Commits>, Refusal>
    ensures { (log : List RecordOf) → AreTablesOf log tables.now → (sent_by log).past.system ≡ system
        → JudgedCommitsOrNone log (asked_gather log name.now) result }
{
    match tables.model() {
        None => Err(Refusal::N12),
        Some(model) => gather_by(alloc, tables, model, system, name),
    }
}

/// The record by which the system of this number dispatches what waits. None exactly where nothing waits.
///
/// `N12` comes exactly where no model is in force, and `N11` else where there would be over 65,536 units. `OutOfMemory` comes where a
/// request for memory was refused.
pub(crate) fn dispatch(
    alloc: Global,
    tables: &DocumentTables,
    system: SystemNo,
) -> Result<Option<Commits>, Refusal>
    ensures { (log : List RecordOf) → AreTablesOf log tables.now → (sent_by log).past.system ≡ system
        → JudgedCommitsOrNone log (asked_dispatch log) result }
{
    let Some(_) = tables.model() else {
        return Err(Refusal::N12);
    };
    if tables.outbound().outbox().waiting.is_empty() {
        return Ok(None);
    }
    let wanted = with_room(alloc, tables, system, Record::Dispatch)?;
    Ok(Some(wanted))
}

/// Whether a document may be a master, or why it may not.
fn judge(alloc: Global, model: &Model, master: &RawUnitDoc) -> Result<(), Refusal>
    ensures { IsMaster (master_fault model.now master.now) result }
{
    match check_master(alloc, model, master) {
        Ok(()) => Ok(()),
        Err(MasterFault::Unknown) => Err(Refusal::N12),
        Err(MasterFault::Syntax(fault)) => Err(Refusal::N4(fault)),
        Err(MasterFault::OutOfMemory) => Err(Refusal::OutOfMemory),
    }
}

/// The record that commits a master alone.
fn commit_of(alloc: Global, master: &RawUnitDoc) -> Result<Record, OutOfMemory>
    ensures { IfOk result (λ next. next ≡ Commit None (master.now ∷ [])) }
{
    // The log keeps the list, so it gets the room for one.
    let mut docs = Vec::with_capacity(alloc, 1)?;
    docs.push(master.clone()?)?;
    Ok(Record::Commit {
        origin: None,
        docs: Items::from_vec(docs),
    })
}

/// A record that makes units of a system, where there is room for them.
fn with_room(
    alloc: Global,
    tables: &DocumentTables,
    system: SystemNo,
    next: Record,
) -> Result<Commits, Refusal>
    requires commits { is_commit next ≡ true }
    requires writable { IsWritable next }
    ensures { (log : List RecordOf) → AreTablesOf log tables.now → (sent_by log).past.system ≡ system
        → (model : ListsOf) → model_of log ≡ Some model → JudgedCommits log (with_room log next) result }
{
    match tables.added(alloc, system, &next) {
        Ok(added) => Ok(Commits { next, added }),
        Err(AddFault::TooMany(count)) => Err(Refusal::N11(count)),
        Err(AddFault::OutOfMemory) => Err(Refusal::OutOfMemory),
    }
}

/// The record by which a system gathers the objects that wait for the message type of a name of its model.
fn gather_by(
    alloc: Global,
    tables: &DocumentTables,
    model: &Model,
    system: SystemNo,
    name: &[u8],
) -> Result<Option<Commits>, Refusal>
    ensures { (log : List RecordOf) → AreTablesOf log tables.now → (sent_by log).past.system ≡ system → model_of log ≡ Some model.now
        → JudgedCommitsOrNone log (asked_gather log name.now) result }
{
    let _ = model.as_lists();
    match model.message(name) {
        None => Err(Refusal::N12),
        Some(message) => gather_for(alloc, tables, model, system, message),
    }
}

/// The record by which a system gathers the objects that wait for a message type of its model.
fn gather_for(
    alloc: Global,
    tables: &DocumentTables,
    model: &Model,
    system: SystemNo,
    message: MessageNo,
) -> Result<Option<Commits>, Refusal>
    requires known { message < length model.now.messages }
    ensures { (log : List RecordOf) → AreTablesOf log tables.now → (sent_by log).past.system ≡ system → model_of log ≡ Some model.now
        → (type : MessageOf) → slice_get model.now.messages message ≡ Some type → JudgedCommitsOrNone log (gathered_for log model.now message type) result }
{
    let lists = model.as_lists();
    let ty = type_at(lists, message);
    if ty.pointers.is_empty() {
        return Ok(None);
    }
    let docs = gathered(
        alloc,
        model,
        tables.inbound().objects(),
        tables.inbound().pointers(),
        message,
    )?;
    commit_gathered(alloc, tables, system, ty.name.as_slice(), docs)
}

/// The record that commits what was gathered for a message type. None where that is nothing.
fn commit_gathered(
    alloc: Global,
    tables: &DocumentTables,
    system: SystemNo,
    name: &[u8],
    docs: Items<RawUnitDoc>,
) -> Result<Option<Commits>, Refusal>
    requires named { IsName name.now }
    requires short { AllByRecursion IsDocument docs }
    ensures { (log : List RecordOf) → AreTablesOf log tables.now → (sent_by log).past.system ≡ system
        → (model : ListsOf) → model_of log ≡ Some model → JudgedCommitsOrNone log (gathered_or_none (with_room log) name.now docs) result }
{
    if docs.is_empty() {
        return Ok(None);
    }
    // A record counts its documents in four bytes.
    if docs.len() > u32::MAX as usize {
        return Err(Refusal::OutOfMemory);
    }
    let origin = Items::from_slice(alloc, name)?;
    let next = Record::Commit {
        origin: Some(origin),
        docs,
    };
    let wanted = with_room(alloc, tables, system, next)?;
    Ok(Some(wanted))
}

/// The message type of a number.
fn type_at(lists: &Lists, message: MessageNo) -> &Message
    requires { message < length lists.now.messages }
    ensures { slice_get lists.now.messages message ≡ Some result.now }
{
    &lists.messages[usize::from(message.0)]
}

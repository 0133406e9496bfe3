//! What a record of the log does to each table, a function a table.

ghost use Rattle.std.specs.Prelude.{OnOk};
ghost use Rattle.system_tables.specs.Noted.{NotedOutgoing, NotedIncoming, NotedReceived, NotedSeen, NotedUnconfirmed};
ghost use Rattle.system_tables.specs.CanNote.{CanNoteOutgoing, CanNoteIncoming};

use crate::adding::{add, add_all};
use crate::ending::{finish, mark};
use ale_base::{Items, Mark, OutOfMemory, Tid, Way};
use multi_queue::{QueueKey, Queues};
use std::alloc::Global;
use tid_table::Tids;
use unit_core::{AleUnit, Record};

/// Notes a record in the list of the ids that were received.
pub(crate) fn note_received(received: &mut Items<Tid>, next: &Record) -> Result<(), OutOfMemory>
    ensures { OnOk result (NotedReceived next.now received.old received.new) }
{
    match next {
        Record::Accept { unit } | Record::Direct { unit } => received.push(unit.tid),
        _ => Ok(()),
    }
}

/// Notes a record in the table of the ids that were received and not forgotten.
pub(crate) fn note_seen(seen: &mut Tids, next: &Record) -> Result<(), OutOfMemory>
    ensures { OnOk result (NotedSeen next.now seen.old seen.new) }
{
    match next {
        Record::Accept { unit } | Record::Direct { unit } => seen.enter(unit.tid),
        Record::Forget { tid } => {
            seen.forget(*tid);
            Ok(())
        }
        _ => Ok(()),
    }
}

/// Notes a record in the table of the ids that are done and not ended.
pub(crate) fn note_unconfirmed(unconfirmed: &mut Tids, next: &Record) -> Result<(), OutOfMemory>
    ensures { OnOk result (NotedUnconfirmed next.now unconfirmed.old unconfirmed.new) }
{
    match next {
        Record::Done { tid } => unconfirmed.enter(*tid),
        Record::Ended { tid } => {
            unconfirmed.forget(*tid);
            Ok(())
        }
        _ => Ok(()),
    }
}

/// Notes a record in the outbound queues, with the units that it commits and the number of the claim that it ends.
pub(crate) fn note_outgoing(
    alloc: Global,
    queues: &mut Queues,
    next: &Record,
    more: &[AleUnit],
    claim: Option<u64>,
) -> Result<(), OutOfMemory>
    requires { CanNoteOutgoing next.now more.now claim queues.old }
    ensures { OnOk result (NotedOutgoing next.now more.now queues.old queues.new) }
{
    match next {
        Record::Commit { .. } | Record::Dispatch => {
            return add_all(alloc, Way::Outgoing, queues, more);
        }
        Record::Done { tid } => finish(queues, *tid, claim),
        Record::Mark { tid, cause } => mark(queues, *tid, *cause, claim),
        Record::Stop {
            way: Way::Outgoing,
            destination,
            name,
        } => return queues.stop(QueueKey {
            partner: *destination,
            name: *name,
        }),
        Record::Start {
            way: Way::Outgoing,
            destination,
            name,
        } => queues.start(QueueKey {
            partner: *destination,
            name: *name,
        }),
        Record::Retry {
            way: Way::Outgoing,
            tid,
        } => queues.retry(*tid),
        _ => {}
    }
    Ok(())
}

/// Notes a record in the inbound queues, with the number of the claim that it ends.
pub(crate) fn note_incoming(
    alloc: Global,
    queues: &mut Queues,
    next: &Record,
    claim: Option<u64>,
) -> Result<(), OutOfMemory>
    requires { CanNoteIncoming next.now claim queues.old }
    ensures { OnOk result (NotedIncoming next.now queues.old queues.new) }
{
    match next {
        Record::Accept { unit } => return add(alloc, Way::Incoming, queues, unit),
        Record::Execute { tid } => finish(queues, *tid, claim),
        Record::Fail { tid } => mark(queues, *tid, Mark::Sysfail, claim),
        Record::Stop {
            way: Way::Incoming,
            destination,
            name,
        } => return queues.stop(QueueKey {
            partner: *destination,
            name: *name,
        }),
        Record::Start {
            way: Way::Incoming,
            destination,
            name,
        } => queues.start(QueueKey {
            partner: *destination,
            name: *name,
        }),
        Record::Retry {
            way: Way::Incoming,
            tid,
        } => queues.retry(*tid),
        _ => {}
    }
    Ok(())
}

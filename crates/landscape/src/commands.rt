//! What goes with the record of a command, counted and listed; and how its appending ends.

ghost use Rattle.std.specs.Prelude.{◌≡◌, List, IfOk, map, true};
ghost use Rattle.unit_core.specs.declared.records.Record.{Record as RecordOf};
ghost use Rattle.outbound_build.specs.declared.added.OutUnit.{OutUnit as OutUnitOf};
ghost use Rattle.trfc_protocol.specs.Legal.{is_commit};
ghost use Rattle.document_state.specs.declared.made.Made.TheVariants.{Sent};
ghost use Rattle.document_state.specs.Made.{GoesWith};
ghost use Rattle.landscape.specs.Carried.{counts_of, last_status, masters_in};
ghost use Rattle.landscape.specs.Operator.{number_to, way_at, way_to};
ghost use Rattle.landscape.specs.Working.{late_of};
ghost use Rattle.landscape.specs.steps.Ready.{ended_of, refused_of};

use crate::Gathered;
use crate::wanted::Commits;
use ale_base::{Items, OutOfMemory, SystemNo, Tid, Way};
use outbound_build::Added;
use status_log::{Refusal, Status, StatusAt};
use std::alloc::Global;
use unit_core::{AleUnit, Record};
use unit_landscape::{AppendEnd, Late, LateEnd, OperatorEnd};

/// How many masters, documents and units a record makes that commits documents.
pub(crate) fn counts_of(wanted: &Commits) -> Gathered
    requires { is_commit wanted.now.next ≡ true }
    ensures { (log : List RecordOf) → GoesWith log wanted.now.next (Sent wanted.now.added) → result ≡ counts_of log wanted.now.next }
{
    let Commits { next, added } = wanted;
    Gathered {
        masters: masters_in(next),
        documents: added.documents.len() as u64,
        units: added.units.len() as u64,
    }
}

/// How many masters a record commits.
fn masters_in(next: &Record) -> u64
    ensures { result ≡ masters_in next.now }
{
    match next {
        Record::Commit { docs, .. } => docs.len() as u64,
        _ => 0,
    }
}

/// The units of what a record adds.
pub(crate) fn units_of(alloc: Global, added: &Added) -> Result<Items<AleUnit>, OutOfMemory>
    ensures { IfOk result (λ units. units ≡ map (λ (one : OutUnitOf). one.unit) added.now.units) }
{
    let mut units = Items::new(alloc);
    for one in added.units.as_slice() {
        units.push(one.unit.clone()?)?;
    }
    Ok(units)
}

/// Why a command is refused whose record was not appended, or its system is down although it was.
pub(crate) fn ended(appended: Result<(), AppendEnd>) -> Result<(), Refusal>
    ensures { result ≡ ended_of appended }
{
    match appended {
        Ok(()) => Ok(()),
        Err(AppendEnd::Full(length)) => Err(Refusal::N10(length)),
        Err(AppendEnd::Volume) => Err(Refusal::Volume),
        Err(AppendEnd::Before | AppendEnd::After) => Err(Refusal::OutOfMemory),
    }
}

/// Why an operator is refused, by why his record was not appended; where it may not be, this refusal comes.
pub(crate) fn refused(
    operated: Result<(), OperatorEnd>,
    not_allowed: Refusal,
) -> Result<(), Refusal>
    ensures { result ≡ refused_of not_allowed operated }
{
    match operated {
        Ok(()) => Ok(()),
        Err(OperatorEnd::Down) => Err(Refusal::N2),
        Err(OperatorEnd::NotAllowed) => Err(not_allowed),
        Err(OperatorEnd::Full(length)) => Err(Refusal::N10(length)),
        Err(OperatorEnd::Volume) => Err(Refusal::Volume),
        Err(OperatorEnd::OutOfMemory) => Err(Refusal::OutOfMemory),
    }
}

/// Why an operator is refused, by why no late request came.
pub(crate) fn late_refused(came: Result<Late, LateEnd>) -> Result<Late, Refusal>
    ensures { result ≡ late_of came }
{
    match came {
        Ok(came) => Ok(came),
        Err(LateEnd::NoSuchSystem | LateEnd::NotCommitted) => Err(Refusal::N6),
        Err(LateEnd::SenderDown) => Err(Refusal::N2),
        Err(LateEnd::NotMarked) => Err(Refusal::N7),
        Err(LateEnd::Full(length)) => Err(Refusal::N10(length)),
        Err(LateEnd::OutOfMemory) => Err(Refusal::OutOfMemory),
    }
}

/// The direction of a queue and the number of its destination: without one it is a queue of units that came in.
pub(crate) fn queue_to(destination: Option<SystemNo>) -> (Way, u8)
    ensures { result ≡ (way_to destination, number_to destination) }
{
    match destination {
        Some(destination) => (Way::Outgoing, destination.get()),
        None => (Way::Incoming, 0),
    }
}

/// The direction in which a system has the unit of an id.
pub(crate) fn way_at(system: SystemNo, tid: Tid) -> Way
    ensures { result ≡ way_at system tid }
{
    if tid.system() == system {
        Way::Outgoing
    } else {
        Way::Incoming
    }
}

/// The last of some statuses; one of code 0 where there is none.
pub(crate) fn last_of(statuses: &[StatusAt]) -> Status
    ensures { result ≡ last_status statuses.now }
{
    match statuses.last() {
        None => Status::plain(0),
        Some(one) => one.status,
    }
}

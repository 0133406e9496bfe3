//! The statuses that documents get by the record of a number, and the documents that units carry.

ghost use Rattle.std.specs.Prelude.{◌≡◌, ◌++◌, OnOk, ℕ, List};
ghost use Rattle.std.specs.List.{flat_map};
ghost use Rattle.status_log.specs.Statuses.{AddsAll, given_by, plain};
ghost use Rattle.outbound_build.specs.Statuses.{carried_by, carried_in, made_for, made_statuses, passed_for, passed_in};
ghost use Rattle.outbound_build.specs.steps.Adding.{Gets};
ghost use Rattle.outbound_build.specs.declared.added.Added.{Added};

use crate::{Fate, OutDocument, OutUnit};
use ale_base::{DocNum, Items, OutOfMemory};
use status_log::{Status, StatusLog};
use unit_core::Record;

/// Gives documents the statuses that they have as they are made.
pub(crate) fn add_made(
    statuses: &mut StatusLog,
    by: u64,
    documents: &[OutDocument],
) -> Result<(), OutOfMemory>
    ensures { OnOk result (Gets by (made_for documents.now) statuses.old statuses.new) }
{
    for document in documents {
        add_first(statuses, by, document.number, document.fate)?;
    }
    Ok(())
}

/// Gives a document the statuses that it has as it is made.
fn add_first(
    statuses: &mut StatusLog,
    by: u64,
    number: DocNum,
    fate: Fate,
) -> Result<(), OutOfMemory>
    ensures { OnOk result (AddsAll number.0 (given_by by (made_statuses fate)) statuses.old statuses.new) }
{
    statuses.add(number, Status::plain(1), by)?;
    match fate {
        Fate::Sent => {
            statuses.add(number, Status::plain(30), by)?;
            statuses.add(number, Status::plain(3), by)
        }
        Fate::Waits => statuses.add(number, Status::plain(30), by),
        Fate::Refused(_) => statuses.add(number, Status::plain(29), by),
    }
}

/// Gives the documents that go on by a record their status.
pub(crate) fn pass(
    statuses: &mut StatusLog,
    by: u64,
    carried: &[Items<DocNum>],
    next: &Record,
    units: &[OutUnit],
) -> Result<(), OutOfMemory>
    ensures { (added : Added) → added.units ≡ units.now → OnOk result (Gets by (passed_in carried.now added next.now) statuses.old statuses.new) }
{
    match next {
        Record::Dispatch => pass_all(statuses, by, units),
        Record::Done { tid } => pass_each(
            statuses,
            by,
            carried_by(carried, tid.unit()),
            Status::plain(12),
        ),
        _ => Ok(()),
    }
}

/// The documents that the unit of a number carries.
fn carried_by(carried: &[Items<DocNum>], unit: u32) -> &[DocNum]
    ensures { result.now ≡ carried_by carried.now unit }
{
    if unit == 0 {
        return &[];
    }
    match carried.get(unit as usize - 1) {
        None => &[],
        Some(numbers) => numbers.as_slice(),
    }
}

/// Gives the documents of units 03.
fn pass_all(statuses: &mut StatusLog, by: u64, units: &[OutUnit]) -> Result<(), OutOfMemory>
    ensures { OnOk result (Gets by (λ doc. flat_map (λ one. passed_for (plain 3) one.documents doc) units.now) statuses.old statuses.new) }
{
    for one in units {
        pass_each(statuses, by, one.documents.as_slice(), Status::plain(3))?;
    }
    Ok(())
}

/// Gives each of some documents a status.
fn pass_each(
    statuses: &mut StatusLog,
    by: u64,
    numbers: &[DocNum],
    status: Status,
) -> Result<(), OutOfMemory>
    ensures { OnOk result (Gets by (passed_for status numbers.now) statuses.old statuses.new) }
{
    for number in numbers {
        statuses.add(*number, status, by)?;
    }
    Ok(())
}

/// Adds the documents that units carry.
pub(crate) fn push_carried(
    carried: &mut Items<Items<DocNum>>,
    units: Items<OutUnit>,
) -> Result<(), OutOfMemory>
    ensures { OnOk result (carried.new ≡ carried.old ++ carried_in units) }
{
    for one in units.into_vec() {
        let OutUnit { documents, .. } = one;
        carried.push(documents)?;
    }
    Ok(())
}

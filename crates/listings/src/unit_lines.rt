//! The units of a system, a line a unit.

ghost use Rattle.std.specs.Prelude.{◌≡◌, ◌≤◌, ◌++◌, [], ℕ, List, Option, IfOk, OnOk, length, map};
ghost use Rattle.std.specs.List.{cons_option};
ghost use Rattle.std.specs.Option.{option_map};
ghost use Rattle.ale_base.specs.Tid.{TidOf};
ghost use Rattle.unit_core.specs.declared.ale_unit.AleUnit.{AleUnit as UnitOf};
ghost use Rattle.unit_core.specs.declared.records.Record.{Record};
ghost use Rattle.system_tables.specs.Tables.{unit_numbered};
ghost use Rattle.document_state.specs.Tables.{AreTablesOf as AreDocumentsOf};
ghost use Rattle.listings.specs.OfSystem.{AreSystemOf};
ghost use Rattle.listings.specs.UnitLines.{unit_lines, waiting_as};
ghost use Rattle.listings.specs.steps.Kept.{arrived_kept, arrived_kept_line, sent_kept, sent_kept_line};

use crate::system_names::name_under;
use ale_base::{Items, Mark, OutOfMemory, Tid, Way};
use document_state::DocumentTables;
use status_log::{UnitLine, UnitState};
use std::alloc::Global;
use system_tables::SystemTables;

/// The most units that a system commits.
const MOST_UNITS: usize = 65_536;

/// The units of a system: those that it committed, in order, and then those that it received, in the order of receipt, each with the other
/// system, its state, and whether its receiver has forgotten its id. It takes a time as the logarithm of the units for each.
///
/// `OutOfMemory` comes where a request for memory was refused, or the system committed over 65,536 units, which no legal log does.
pub fn units(
    alloc: Global,
    tables: &SystemTables<DocumentTables>,
) -> Result<Items<UnitLine>, OutOfMemory>
    ensures { (committed : List UnitOf) (log : List Record) (sent arrived : TidOf → Option ℕ) → AreSystemOf committed log sent arrived tables.now
        → IfOk result (λ lines. lines ≡ unit_lines committed log) }
{
    if tables.count() > MOST_UNITS {
        return Err(OutOfMemory);
    }
    let mut lines = Items::new(alloc);
    push_sent(alloc, tables, &mut lines)?;
    push_arrived(alloc, tables, &mut lines)?;
    Ok(lines)
}

/// Adds the units that the system committed.
fn push_sent(
    alloc: Global,
    tables: &SystemTables<DocumentTables>,
    lines: &mut Items<UnitLine>,
) -> Result<(), OutOfMemory>
    requires { length tables.now.units ≤ MOST_UNITS }
    ensures { (log : List Record) → AreDocumentsOf log tables.now.application
        → OnOk result (lines.new ≡ lines.old ++ map (sent_kept_line tables.now log) tables.now.units) }
{
    for place in 0..tables.count() {
        push_sent_at(alloc, tables, place as u32 + 1, lines)?;
    }
    Ok(())
}

/// Adds the unit of a number that the system committed, if there is one.
fn push_sent_at(
    alloc: Global,
    tables: &SystemTables<DocumentTables>,
    number: u32,
    lines: &mut Items<UnitLine>,
) -> Result<(), OutOfMemory>
    ensures { (log : List Record) → AreDocumentsOf log tables.now.application
        → OnOk result (lines.new ≡ lines.old ++ cons_option (option_map (sent_kept_line tables.now log) (unit_numbered number tables.now.units)) []) }
{
    match tables.unit(number) {
        None => Ok(()),
        Some(unit) => {
            let state = sent_state(tables, unit.tid);
            let name = name_under(tables.application(), unit.receiver.get());
            let partner = Items::from_slice(alloc, name)?;
            lines.push(UnitLine {
                way: Way::Outgoing,
                tid: unit.tid,
                partner,
                state,
                forgotten: false,
            })
        }
    }
}

/// Adds the units that the system received.
fn push_arrived(
    alloc: Global,
    tables: &SystemTables<DocumentTables>,
    lines: &mut Items<UnitLine>,
) -> Result<(), OutOfMemory>
    ensures { (log : List Record) → AreDocumentsOf log tables.now.application
        → OnOk result (lines.new ≡ lines.old ++ map (arrived_kept_line tables.now log) tables.now.received) }
{
    let received = tables.received();
    for tid in received {
        let line = arrived_line(alloc, tables, *tid)?;
        lines.push(line)?;
    }
    Ok(())
}

/// The line of a unit that the system received.
fn arrived_line(
    alloc: Global,
    tables: &SystemTables<DocumentTables>,
    tid: Tid,
) -> Result<UnitLine, OutOfMemory>
    ensures { (log : List Record) → AreDocumentsOf log tables.now.application
        → IfOk result (λ line. line ≡ arrived_kept_line tables.now log tid) }
{
    let name = name_under(tables.application(), tid.system().get());
    Ok(UnitLine {
        way: Way::Incoming,
        tid,
        partner: Items::from_slice(alloc, name)?,
        state: arrived_state(tables, tid),
        forgotten: !tables.is_seen(tid),
    })
}

/// The state of a unit that the system committed.
fn sent_state(tables: &SystemTables<DocumentTables>, tid: Tid) -> UnitState
    ensures { result ≡ sent_kept tables.now tid }
{
    if tables.is_outstanding(Way::Outgoing, tid) {
        return waiting_as(UnitState::Unsent, tables.mark(Way::Outgoing, tid));
    }
    if tables.is_unconfirmed(tid) {
        return UnitState::Done;
    }
    UnitState::Ended
}

/// The state of a unit that the system received.
fn arrived_state(tables: &SystemTables<DocumentTables>, tid: Tid) -> UnitState
    ensures { result ≡ arrived_kept tables.now tid }
{
    if tables.is_outstanding(Way::Incoming, tid) {
        return waiting_as(UnitState::Accepted, tables.mark(Way::Incoming, tid));
    }
    UnitState::Executed
}

/// The state of a unit that waits, by its mark.
fn waiting_as(free: UnitState, mark: Option<Mark>) -> UnitState
    ensures { result ≡ waiting_as free mark }
{
    match mark {
        None => free,
        Some(Mark::Cpicerr) => UnitState::Cpicerr,
        Some(Mark::Sysfail) => UnitState::Sysfail,
    }
}

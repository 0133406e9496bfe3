//! Lines of units.

ghost use Rattle.std.specs.Prelude.{◌≡◌, ◌++◌, codes, OnOk};
ghost use Rattle.std.specs.List.{flat_map};
ghost use Rattle.report_text.specs.Listing.{line_of, shown_address, shown_unit, shown_state, shown_forgotten};

use crate::docs::{put_between, way_word};
use crate::put::put;
use ale_base::OutOfMemory;
use status_log::{UnitLine, UnitState};

/// Appends a line a unit.
pub(crate) fn put_units(text: &mut Vec<u8>, lines: &[UnitLine]) -> Result<(), OutOfMemory>
    ensures { OnOk result (text.new.items ≡ text.old.items ++ flat_map (λ u. line_of (shown_unit u)) lines.now) }
{
    for line in lines {
        put_unit(text, line)?;
    }
    Ok(())
}

/// Appends the line of a unit.
fn put_unit(text: &mut Vec<u8>, line: &UnitLine) -> Result<(), OutOfMemory>
    ensures { OnOk result (text.new.items ≡ text.old.items ++ line_of (shown_unit line.now)) }
{
    put(text, b"  ")?;
    put_address(text, line)?;
    put_state(text, line)?;
    put(text, b"\n")
}

/// Appends direction, id and partner of a unit.
fn put_address(text: &mut Vec<u8>, line: &UnitLine) -> Result<(), OutOfMemory>
    ensures { OnOk result (text.new.items ≡ text.old.items ++ shown_address line.now) }
{
    put(text, way_word(line.way))?;
    put_between(text, &line.tid.bytes())?;
    put(text, line.partner.as_slice())
}

/// Appends a blank, the state of a unit, and whether its id is forgotten.
fn put_state(text: &mut Vec<u8>, line: &UnitLine) -> Result<(), OutOfMemory>
    ensures { OnOk result (text.new.items ≡ text.old.items ++ (codes " " ++ (shown_state line.now.state ++ shown_forgotten line.now.forgotten))) }
{
    put(text, b" ")?;
    put(text, state_word(line.state))?;
    put(text, forgotten_word(line.forgotten))
}

/// The word for the state of a unit.
fn state_word(state: UnitState) -> &'static [u8]
    ensures { result.now ≡ shown_state state }
{
    match state {
        UnitState::Unsent => b"open",
        UnitState::Cpicerr => b"CPICERR",
        UnitState::Sysfail => b"SYSFAIL",
        UnitState::Done => b"done",
        UnitState::Ended => b"ended",
        UnitState::Accepted => b"accepted",
        UnitState::Executed => b"executed",
    }
}

/// What is said of a unit whose id is forgotten.
fn forgotten_word(forgotten: bool) -> &'static [u8]
    ensures { result.now ≡ shown_forgotten forgotten }
{
    if forgotten { b" forgotten" } else { b"" }
}

//! The last line of a run that did not end well.

ghost use Rattle.std.specs.Prelude.{◌≡◌, ◌++◌, codes, OnOk, OnErr, IfOk};
ghost use Rattle.std.specs.Fmt.{decimal};
ghost use Rattle.report_text.specs.Reply.{counted};
ghost use Rattle.report_text.specs.FaultLine.{shown_cause, fault_line};

use crate::put::{put, put_counted, put_number};
use ale_base::{Items, OutOfMemory};
use status_log::Cause;
use std::alloc::Global;

/// What is printed last where a run read its model and documents and did not end well.
#[derive(Drop)]
pub enum FaultLine {
    /// `script refused: LINE`: this line of the script is no command.
    Script(u32),
    /// `limit: lines NUMBER`: the script has more lines than may be, and this is the first one too many.
    Lines(u32),
    /// `journals refused: SYSTEM NUMBER CAUSE`: what a system keeps is not what this landscape may have kept.
    Journals {
        /// The name of the system.
        system: Items<u8>,
        /// The place in its journal that the cause tells.
        number: u64,
        /// Why it is refused.
        cause: Cause,
    },
    /// `volumes fault`: a volume failed before the first command.
    Volumes,
    /// `down by fault: SYSTEM`: this system is down since its volume failed.
    DownByFault {
        /// The name of the system.
        system: Items<u8>,
    },
    /// `down, full: SYSTEM LENGTH`: this system is down since a record did not fit.
    DownFull {
        /// The name of the system.
        system: Items<u8>,
        /// How long its journal would be.
        length: u64,
    },
}

/// Appends the last line of a run. After an `Err` nothing was appended.
pub fn fault_line(alloc: Global, fault: &FaultLine, into: &mut Vec<u8>) -> Result<(), OutOfMemory>
    ensures written { OnOk result (into.new.items ≡ into.old.items ++ fault_line fault.now) }
    ensures err { OnErr result (into.new.items ≡ into.old.items) }
{
    let text = fault_text(alloc, fault)?;
    put(into, text.as_slice())
}

/// The last line of a run.
fn fault_text(alloc: Global, fault: &FaultLine) -> Result<Vec<u8>, OutOfMemory>
    ensures { IfOk result (λ text. text.items ≡ fault_line fault.now) }
{
    let mut text = Vec::new(alloc);
    put_fault(alloc, &mut text, fault)?;
    Ok(text)
}

fn put_fault(alloc: Global, text: &mut Vec<u8>, fault: &FaultLine) -> Result<(), OutOfMemory>
    ensures { OnOk result (text.new.items ≡ text.old.items ++ fault_line fault.now) }
{
    match fault {
        FaultLine::Script(line) => put_number_line(
            alloc,
            text,
            b"script refused:",
            u64::from(*line),
        ),
        FaultLine::Lines(count) => put_number_line(alloc, text, b"limit: lines", u64::from(*count)),
        FaultLine::Journals {
            system,
            number,
            cause,
        } => put_journals(alloc, text, system.as_slice(), *number, *cause),
        FaultLine::Volumes => put(text, b"volumes fault\n"),
        FaultLine::DownByFault { system } => {
            put_name_line(text, b"down by fault: ", system.as_slice())
        }
        FaultLine::DownFull { system, length } => put_full(alloc, text, system.as_slice(), *length),
    }
}

/// Appends a line that ends with a number.
fn put_number_line(
    alloc: Global,
    text: &mut Vec<u8>,
    words: &[u8],
    number: u64,
) -> Result<(), OutOfMemory>
    ensures { OnOk result (text.new.items ≡ text.old.items ++ (counted words.now number ++ codes "\n")) }
{
    put_counted(alloc, text, words, number)?;
    put(text, b"\n")
}

/// Appends a line that ends with a name.
fn put_name_line(text: &mut Vec<u8>, words: &[u8], name: &[u8]) -> Result<(), OutOfMemory>
    ensures { OnOk result (text.new.items ≡ text.old.items ++ (words.now ++ (name.now ++ codes "\n"))) }
{
    put(text, words)?;
    put(text, name)?;
    put(text, b"\n")
}

fn put_full(
    alloc: Global,
    text: &mut Vec<u8>,
    system: &[u8],
    length: u64,
) -> Result<(), OutOfMemory>
    ensures { OnOk result (text.new.items ≡ text.old.items ++ (codes "down, full: " ++ (counted system.now length ++ codes "\n"))) }
{
    put(text, b"down, full: ")?;
    put_number_line(alloc, text, system, length)
}

fn put_journals(
    alloc: Global,
    text: &mut Vec<u8>,
    system: &[u8],
    number: u64,
    cause: Cause,
) -> Result<(), OutOfMemory>
    ensures { OnOk result (text.new.items ≡ text.old.items
        ++ (codes "journals refused: " ++ (counted system.now number ++ (codes " " ++ (shown_cause cause ++ codes "\n"))))) }
{
    put(text, b"journals refused: ")?;
    put_counted(alloc, text, system, number)?;
    put(text, b" ")?;
    put_cause(alloc, text, cause)?;
    put(text, b"\n")
}

/// Appends why a journal is refused.
fn put_cause(alloc: Global, text: &mut Vec<u8>, cause: Cause) -> Result<(), OutOfMemory>
    ensures { OnOk result (text.new.items ≡ text.old.items ++ shown_cause cause) }
{
    match cause {
        Cause::Damaged => put(text, b"damaged"),
        Cause::Unread => put(text, b"unread"),
        Cause::System(kept, expected) => put_systems(alloc, text, kept, expected),
        Cause::Model(place) => put_counted(alloc, text, b"model", place),
        Cause::Illegal => put(text, b"illegal"),
        Cause::OnceB => put(text, b"once b"),
        Cause::OnceC => put(text, b"once c"),
        Cause::OnceE => put(text, b"once e"),
        Cause::OnceF => put(text, b"once f"),
        Cause::OnceG => put(text, b"once g"),
        Cause::Changed => put(text, b"changed"),
    }
}

fn put_systems(alloc: Global, text: &mut Vec<u8>, kept: u8, expected: u8) -> Result<(), OutOfMemory>
    ensures { OnOk result (text.new.items ≡ text.old.items ++ (counted (codes "system") kept ++ (codes " " ++ decimal expected))) }
{
    put_counted(alloc, text, b"system", u64::from(kept))?;
    put(text, b" ")?;
    put_number(alloc, text, u64::from(expected))
}

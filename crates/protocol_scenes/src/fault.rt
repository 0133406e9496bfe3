//! Why a line of these case files is not read.

use ale_base::OutOfMemory;
use case_form::{LineEnd, Rule};
use std::alloc::AllocError;

/// Why a line is not read. It holds no text, so that a value of any type stands beside it in a `Result`.
#[derive(Clone, Copy)]
pub(crate) enum Fault {
    NoItem,
    MoreWords,
    NoNumber,
    NoSystem,
    NoTid,
    NotListed,
    BadUnit,
    BadRecord,
    BadEvent,
    BadWalk,
    Refused,
    OutOfMemory,
}

impl From<OutOfMemory> for Fault {
    fn from(_: OutOfMemory) -> Fault {
        Fault::OutOfMemory
    }
}

impl From<AllocError> for Fault {
    fn from(_: AllocError) -> Fault {
        Fault::OutOfMemory
    }
}

impl Fault {
    /// The fault as the form of case files tells it.
    pub(crate) fn end(self) -> LineEnd {
        LineEnd::Broken(Rule(match self {
            Fault::NoItem => "there is no such item",
            Fault::MoreWords => "there are more words than the line has places for",
            Fault::NoNumber => "a number is decimal digits, and of a record at most 255",
            Fault::NoSystem => "a system is a number from 1 to 16",
            Fault::NoTid => "a unit is its system, a dot and its number, from 1",
            Fault::NotListed => "no system lists this unit",
            Fault::BadUnit =>
                "a unit is SYSTEM to SYSTEM, with outq NAMES, inq NAMES and function NAME",
            Fault::BadRecord => "there is no such record",
            Fault::BadEvent => "there is no such event",
            Fault::BadWalk => "walks are COUNT events COUNT seed NUMBER least COUNT kept COUNT",
            Fault::Refused => "these units are refused by the rules that list them",
            Fault::OutOfMemory => return LineEnd::OutOfMemory,
        }))
    }
}

//! The words of a line.

use crate::fault::Fault;
use crate::units::{Lists, unit_of};
use ale_base::{Items, QueueName, SystemNo, Tid};
use case_form::{cut, first_word, number_of};
use std::alloc::Global;
use unit_core::AleUnit;

/// The words of a line that are not read yet.
#[derive(Clone, Copy)]
pub(crate) struct Words<'a> {
    rest: &'a [u8],
}

impl<'a> Words<'a> {
    pub(crate) fn of(line: &'a [u8]) -> Words<'a> {
        Words { rest: line }
    }

    /// The next word. It is empty where there is none.
    pub(crate) fn word(&mut self) -> &'a [u8] {
        let (word, rest) = first_word(self.rest);
        self.rest = rest;
        word
    }

    /// What the name that comes next stands for, of one word or more.
    pub(crate) fn choice<T: Copy>(
        &mut self,
        table: &[(&'static [u8], T)],
        fault: Fault,
    ) -> Result<T, Fault> {
        for (name, meaning) in table {
            if let Some(rest) = self.rest.strip_prefix(name) {
                self.rest = rest.strip_prefix(b" ").unwrap_or(rest);
                return Ok(*meaning);
            }
        }
        Err(fault)
    }

    /// Whether this word comes next, which is read then.
    pub(crate) fn after(&mut self, word: &'static [u8]) -> bool {
        let (next, rest) = first_word(self.rest);
        if next != word {
            return false;
        }
        self.rest = rest;
        true
    }

    /// The moment of a record: `at` and a number. None where there is no more.
    pub(crate) fn moment(&mut self) -> Result<Option<u64>, Fault> {
        if !self.after(b"at") {
            return Ok(None);
        }
        Ok(Some(u64::from(self.number()?)))
    }

    /// All that is not read yet.
    pub(crate) fn rest(&mut self) -> &'a [u8] {
        let rest = self.rest;
        self.rest = &[];
        rest
    }

    /// Whether all words were read.
    pub(crate) fn is_at_end(&self) -> bool {
        self.rest.is_empty()
    }

    /// All words have to be read.
    pub(crate) fn end(&self) -> Result<(), Fault> {
        if self.rest.is_empty() {
            Ok(())
        } else {
            Err(Fault::MoreWords)
        }
    }

    pub(crate) fn number(&mut self) -> Result<u32, Fault> {
        number_in(self.word()).ok_or(Fault::NoNumber)
    }

    /// A number of a record, of at most one byte.
    pub(crate) fn byte(&mut self) -> Result<u8, Fault> {
        u8::try_from(self.number()?).ok().ok_or(Fault::NoNumber)
    }

    /// The system of a number, from 1 to 16.
    pub(crate) fn system(&mut self) -> Result<SystemNo, Fault> {
        system_of(self.word()).ok_or(Fault::NoSystem)
    }

    /// The id of a unit: its system, a dot and its number.
    pub(crate) fn tid(&mut self) -> Result<Tid, Fault> {
        tid_of(self.word()).ok_or(Fault::NoTid)
    }

    /// A unit that is listed.
    pub(crate) fn unit<'l>(&mut self, lists: &'l Lists) -> Result<&'l AleUnit, Fault> {
        unit_of(lists, self.tid()?).ok_or(Fault::NotListed)
    }

    /// The name of a queue.
    pub(crate) fn name(&mut self) -> Result<QueueName, Fault> {
        queue_of(self.word())
    }

    /// Names of queues, with commas between them.
    pub(crate) fn names(&mut self, alloc: Global) -> Result<Items<QueueName>, Fault> {
        let mut names = Items::new(alloc);
        for part in self.word().split(|byte| *byte == b',') {
            names.push(queue_of(part)?)?;
        }
        Ok(names)
    }
}

fn queue_of(word: &[u8]) -> Result<QueueName, Fault> {
    QueueName::of(word).ok().ok_or(Fault::BadUnit)
}

fn system_of(word: &[u8]) -> Option<SystemNo> {
    SystemNo::of(u8::try_from(number_in(word)?).ok()?)
}

fn tid_of(word: &[u8]) -> Option<Tid> {
    let (system, unit) = cut(word, b'.')?;
    tid_with(system_of(system)?, number_in(unit)?)
}

/// The id of a unit of a system. None where it has no unit of this number.
fn tid_with(system: SystemNo, unit: u32) -> Option<Tid> {
    if unit == 0 || unit > Tid::MAX_UNIT {
        return None;
    }
    Some(Tid::of(system, unit))
}

/// The number that a word spells.
fn number_in(word: &[u8]) -> Option<u32> {
    number_of(word).ok()
}

//! What a volume is made to hold, as a case writes it.

use crate::held::{Given, Held, Holding};
use crate::rules;
use ale_base::{Items, SystemNo};
use case_form::{CaseFault, Item, LineEnd, Rule, first_word, number_of, put_text};
use std::alloc::Global;

/// What an item says: `I first COUNT`, or `I` and a journal in its block.
pub(crate) fn holding_of(alloc: Global, item: &Item) -> Result<Holding, CaseFault> {
    let (system, rest) = first_word(item.rest.as_slice());
    let number = number_of(system).map_err(|end| end.at(item.line))?;
    let Some(system) = system_of(number) else {
        return Err(LineEnd::Broken(rules::NO_SUCH_HOLDING).at(item.line));
    };
    let what = match rest.strip_prefix(b"first ") {
        Some(count) => front_of(item, count)?,
        None if rest.is_empty() => Held::Journal(journal_of(alloc, item)?),
        None => return Err(LineEnd::Broken(rules::NO_SUCH_HOLDING).at(item.line)),
    };
    Ok(Holding { system, what })
}

/// So many of the first bytes. There is no block.
fn front_of(item: &Item, count: &[u8]) -> Result<Held, CaseFault> {
    if let Some(line) = item.block.first() {
        return Err(LineEnd::Broken(Rule::NO_BLOCK).at(line.line));
    }
    let count = number_of(count).map_err(|end| end.at(item.line))?;
    Ok(Held::Front(u64::from(count)))
}

/// The records of a block, a line each.
fn journal_of(alloc: Global, item: &Item) -> Result<Items<Given>, CaseFault> {
    let mut records = Items::new(alloc);
    for line in &item.block {
        let record = given_by(alloc, line.text.as_slice()).map_err(|end| end.at(line.line))?;
        records.push(record)?;
    }
    Ok(records)
}

/// The record of a line: `copy I K`, `bare I K` or `entry TEXT`.
fn given_by(alloc: Global, line: &[u8]) -> Result<Given, LineEnd> {
    let (word, rest) = first_word(line);
    if word == b"copy".as_slice() {
        record_at(rest, false)
    } else if word == b"bare".as_slice() {
        record_at(rest, true)
    } else if word == b"entry".as_slice() {
        let mut bytes = Vec::new(alloc);
        put_text(&mut bytes, rest)?;
        Ok(Given::Bytes(Items::from_vec(bytes)))
    } else {
        Err(rules::NO_SUCH_HOLDING.into())
    }
}

/// The record of a system and a number, `I K`, whole or without the bytes of its moment.
fn record_at(words: &[u8], is_bare: bool) -> Result<Given, LineEnd> {
    let (system, number) = first_word(words);
    let Some(system) = system_of(number_of(system)?) else {
        return Err(rules::NO_SUCH_HOLDING.into());
    };
    let number = u64::from(number_of(number)?);
    if number == 0 {
        return Err(rules::NO_SUCH_HOLDING.into());
    }
    if is_bare {
        Ok(Given::Bare { system, number })
    } else {
        Ok(Given::Copy { system, number })
    }
}

/// The system of a number from 1 to 16.
fn system_of(number: u32) -> Option<SystemNo> {
    match u8::try_from(number) {
        Ok(number) => SystemNo::of(number),
        Err(_) => None,
    }
}

//! What the words of a call stand for.

use ale_base::{Items, QueueName, SystemNo, Tid};
use case_form::{LineEnd, Rule, cut, number_of};
use multi_queue::QueueKey;
use std::alloc::Global;

/// The one rule of this program beside those of all case files.
pub(crate) const NO_CALL: Rule = Rule("an item is a call on queues, with its words");

/// The id of a unit: its system, a dot and its number.
pub(crate) fn tid_of(word: &[u8]) -> Option<Tid> {
    let (system, unit) = cut(word, b'.')?;
    let system = SystemNo::of(u8::try_from(number_of(system).ok()?).ok()?)?;
    let unit = number_of(unit).ok()?;
    if unit == 0 || unit > Tid::MAX_UNIT {
        return None;
    }
    Some(Tid::of(system, unit))
}

/// The key of a queue: its partner, a slash and its name.
pub(crate) fn key_of(word: &[u8]) -> Option<QueueKey> {
    let (partner, name) = cut(word, b'/')?;
    let partner = u8::try_from(number_of(partner).ok()?).ok()?;
    let name = QueueName::of(name).ok()?;
    Some(QueueKey { partner, name })
}

/// The keys of queues, with blanks between them, perhaps none.
pub(crate) fn keys_of(alloc: Global, words: &[u8]) -> Result<Items<QueueKey>, LineEnd> {
    let mut keys = Items::new(alloc);
    for word in words.split(|byte| *byte == b' ') {
        if !word.is_empty() {
            let Some(key) = key_of(word) else {
                return Err(NO_CALL.into());
            };
            keys.push(key)?;
        }
    }
    Ok(keys)
}

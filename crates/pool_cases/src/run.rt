//! What an item asks for: a pool over a fake desk.

ghost use Rattle.std.specs.Prelude.{◌≤◌};

use crate::rules;
use case_form::{Item, LineEnd, first_word, meaning_of, number_of};

/// A call of a worker on a work.
#[derive(Clone, Copy, Debug, PartialEq, Eq)]
pub(crate) enum Call {
    Take,
    Prepare,
    Act,
}

/// Where the workers of a pool wait for each other.
#[derive(Clone, Copy, Debug, PartialEq, Eq)]
pub(crate) enum Place {
    /// Nowhere.
    Nowhere,
    /// As they pass the gate.
    Gate,
    /// As they prepare.
    Preparation,
}

/// A pool: how many works, by how many workers; at which call on which work, counted from 0, memory is wanting; and where
/// the workers wait for each other.
#[derive(Clone, Copy)]
pub(crate) struct Run {
    pub(crate) works: u32,
    pub(crate) workers: u8,
    pub(crate) want: Option<(Call, u32)>,
    pub(crate) meeting: Place,
    ghost some: { (1 ≤ workers) × (workers ≤ 16) },
}

/// The pool that an item asks for.
pub(crate) fn read_run(item: &Item) -> Result<Run, LineEnd> {
    let word = item.word.as_slice();
    let rest = item.rest.as_slice();
    if word == b"run".as_slice() {
        return read_workers(rest, None, Place::Nowhere);
    }
    if word == b"gather".as_slice() {
        return read_workers(rest, None, Place::Gate);
    }
    if word == b"meet".as_slice() {
        return read_workers(rest, None, Place::Preparation);
    }
    if word == b"want".as_slice() {
        return read_want(rest);
    }
    Err(rules::NO_SUCH_ITEM.into())
}

/// `WORKS by WORKERS`.
fn read_workers(line: &[u8], want: Option<(Call, u32)>, meeting: Place) -> Result<Run, LineEnd> {
    let (works, rest) = first_word(line);
    let (by, workers) = first_word(rest);
    let works = number_of(works)?;
    let workers = number_of(workers)?;
    if by != b"by".as_slice() || workers < 1 || workers > 16 {
        return Err(rules::BAD_RUN.into());
    }
    Ok(Run {
        works,
        workers: workers as u8,
        want,
        meeting,
    })
}

const CALLS: [(&'static [u8], Call); 3] = [
    (b"take", Call::Take),
    (b"prepare", Call::Prepare),
    (b"act", Call::Act),
];

/// `CALL NUMBER of WORKS by WORKERS`.
fn read_want(line: &[u8]) -> Result<Run, LineEnd> {
    let (call, rest) = first_word(line);
    let (number, rest) = first_word(rest);
    let (of, rest) = first_word(rest);
    let number = number_of(number)?;
    match meaning_of(&CALLS, call) {
        Some(call) if of == b"of".as_slice() && number > 0 => {
            read_workers(rest, Some((call, number - 1)), Place::Nowhere)
        }
        _ => Err(rules::BAD_WANT.into()),
    }
}

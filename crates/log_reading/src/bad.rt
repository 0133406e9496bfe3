//! What is wrong with a record of a log.

ghost use Rattle.std.specs.Prelude.{◌≡◌, MatchOption};
ghost use Rattle.log_reading.specs.Bad.{DifferAt, IsMismatch, Matches};

use ale_base::SystemNo;
use unit_core::Record;

/// Why a record of a log is bad.
#[derive(Clone, Copy)]
pub enum Cause {
    /// It is the Genesis of another system.
    System {
        /// The number that it has.
        kept: u8,
        /// The number of the system whose log it is in.
        expected: u8,
    },
    /// It is a Genesis with another text of the model.
    Model {
        /// The place of the first byte that differs, counted from 0. Where one text is the front of the other, it is the length
        /// of that.
        place: u64,
    },
    /// It may not follow those before it, by the law or by its moment.
    Illegal,
}

/// A record of a log that is bad.
#[derive(Clone, Copy)]
pub struct BadRecord {
    /// The number of the record, counted from 1.
    pub number: u64,
    /// What is wrong with it.
    pub cause: Cause,
}

/// Why a record is a Genesis that is not this system's and this model's; nothing where it is none or is theirs.
pub(crate) fn mismatch_of(system: SystemNo, text: &[u8], next: &Record) -> Option<Cause>
    ensures { MatchOption result (Matches system text.now next.now) (IsMismatch system text.now next.now) }
{
    let Record::Genesis {
        system: kept,
        text: its,
    } = next
    else {
        return None;
    };
    if *kept != system.get() {
        return Some(Cause::System {
            kept: *kept,
            expected: system.get(),
        });
    }
    match difference(its.as_slice(), text) {
        Some(place) => Some(Cause::Model {
            place: place as u64,
        }),
        None => None,
    }
}

/// The first place at which two texts differ; nothing where they are the same.
fn difference(one: &[u8], other: &[u8]) -> Option<usize>
    ensures { MatchOption result (one.now ≡ other.now) (DifferAt one.now other.now) }
{
    let shared = one.len().min(other.len());
    for place in 0..shared {
        if one[place] != other[place] {
            return Some(place);
        }
    }
    if one.len() == other.len() {
        None
    } else {
        Some(shared)
    }
}

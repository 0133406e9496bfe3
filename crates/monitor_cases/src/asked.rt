//! What an item asks for.

ghost use Rattle.std.specs.Prelude.{◌≡◌, true};
ghost use Rattle.live_monitor.specs.Totals.{AreAtLeast, AreInOrder};

use crate::rules;
use case_form::{Item, LineEnd, first_word, number_of};
use live_monitor::Totals;

/// Totals that are stored behind others.
#[derive(Clone, Copy)]
pub(crate) struct Stored {
    pub(crate) first: Totals,
    pub(crate) then: Totals,
    ghost first_in_order: { AreInOrder first },
    ghost then_in_order: { AreInOrder then },
    ghost rises: { AreAtLeast then first },
}

/// What an item asks for: totals that are stored behind others, and told to a reader.
pub(crate) fn read_asked(item: &Item) -> Result<Stored, LineEnd> {
    if item.word.as_slice() == b"told".as_slice() {
        return read_told(item.rest.as_slice());
    }
    Err(rules::NO_SUCH_ITEM.into())
}

/// `UNITS RECEIVED EXECUTED after UNITS RECEIVED EXECUTED`.
fn read_told(line: &[u8]) -> Result<Stored, LineEnd> {
    let (then, rest) = read_totals(line)?;
    let (after, rest) = first_word(rest);
    let (first, _) = read_totals(rest)?;
    if after != b"after".as_slice() {
        return Err(rules::BAD_TOLD.into());
    }
    checked(first, then)
}

/// These totals behind those, if they may be stored so.
fn checked(first: Totals, then: Totals) -> Result<Stored, LineEnd> {
    if !are_in_order(first) || !are_in_order(then) || !are_at_least(then, first) {
        return Err(rules::BAD_TOLD.into());
    }
    Ok(Stored { first, then })
}

/// Whether totals are in order.
fn are_in_order(totals: Totals) -> bool
    ensures { result ≡ true → AreInOrder totals }
{
    totals.executed <= totals.accepted && totals.accepted <= totals.committed
}

/// Whether none of these totals is less than before.
fn are_at_least(now: Totals, was: Totals) -> bool
    ensures { result ≡ true → AreAtLeast now was }
{
    was.committed <= now.committed && was.accepted <= now.accepted && was.executed <= now.executed
}

/// Three numbers, and what stands behind them.
fn read_totals(line: &[u8]) -> Result<(Totals, &[u8]), LineEnd> {
    let (committed, rest) = first_word(line);
    let (accepted, rest) = first_word(rest);
    let (executed, rest) = first_word(rest);
    let totals = Totals {
        committed: u64::from(number_of(committed)?),
        accepted: u64::from(number_of(accepted)?),
        executed: u64::from(number_of(executed)?),
    };
    Ok((totals, rest))
}

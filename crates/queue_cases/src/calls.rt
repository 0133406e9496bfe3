//! Calls on queues. Where what a call asks of its caller does not hold, it is not made.

ghost use Rattle.std.specs.Prelude.{◌≡◌, ◌<◌, Some};
ghost use Rattle.plain_queues.specs.Queues.{claim_of};

use crate::answers::{put_claim, put_lines, put_why};
use crate::words::{NO_CALL, key_of, keys_of, tid_of};
use ale_base::{Mark, OutOfMemory, Tid};
use case_form::{Item, LineEnd, Text, first_word, meaning_of, number_of};
use multi_queue::{Claim, MOST_QUEUES, QueueKey, Queues, Steps, keys_differ};
use qout_scheduler::next;
use std::alloc::Global;
use std::marker::Brand;
use std::sync::ledger::{Blank, Ledger};

/// A call, by its word.
#[derive(Clone, Copy)]
enum Call {
    Add,
    Claim,
    GiveUp(End),
    Retry,
    Why,
    Stop,
    Start,
    Lines,
    Next,
}

/// How a claim ends.
#[derive(Clone, Copy)]
enum End {
    Release,
    Mark(Mark),
    Finish,
}

const CALLS: [(&'static [u8], Call); 12] = [
    (b"add", Call::Add),
    (b"claim", Call::Claim),
    (b"release", Call::GiveUp(End::Release)),
    (b"mark_cpicerr", Call::GiveUp(End::Mark(Mark::Cpicerr))),
    (b"mark_sysfail", Call::GiveUp(End::Mark(Mark::Sysfail))),
    (b"finish", Call::GiveUp(End::Finish)),
    (b"retry", Call::Retry),
    (b"why", Call::Why),
    (b"stop", Call::Stop),
    (b"start", Call::Start),
    (b"lines", Call::Lines),
    (b"next", Call::Next),
];

/// Makes the call of an item, and puts its answer; `done` where it has none.
pub(crate) fn perform(
    alloc: Global,
    queues: &mut Queues,
    item: &Item,
    text: &mut Text,
) -> Result<(), LineEnd> {
    let call = meaning_of(&CALLS, item.word.as_slice()).ok_or(NO_CALL)?;
    let rest = item.rest.as_slice();
    match call {
        Call::Lines => put_lines(text, queues.lines(alloc)?.as_slice())?,
        Call::Next => put_claim(text, next(queues, u64::from(number_of(rest)?)).as_ref())?,
        Call::Stop | Call::Start => on_queue(queues, call, rest)?,
        _ => on_unit(alloc, queues, call, rest, text)?,
    }
    if text.is_empty() {
        text.put_line(b"done")?;
    }
    Ok(())
}

/// A call on a queue, which has no answer.
fn on_queue(queues: &mut Queues, call: Call, rest: &[u8]) -> Result<(), LineEnd> {
    let Some(key) = key_of(rest) else {
        return Err(NO_CALL.into());
    };
    match call {
        Call::Stop => queues.stop(key)?,
        _ => queues.start(key),
    }
    Ok(())
}

/// A call on a unit.
fn on_unit(
    alloc: Global,
    queues: &mut Queues,
    call: Call,
    rest: &[u8],
    text: &mut Text,
) -> Result<(), LineEnd> {
    let (unit, rest) = first_word(rest);
    let Some(tid) = tid_of(unit) else {
        return Err(NO_CALL.into());
    };
    match call {
        Call::Add => add(queues, tid, keys_of(alloc, rest)?.as_slice(), text)?,
        Call::Claim => claim(queues, tid, u64::from(number_of(rest)?), text)?,
        Call::GiveUp(end) => give_up(queues, tid, u64::from(number_of(rest)?), end, text)?,
        _ if !rest.is_empty() => return Err(NO_CALL.into()),
        Call::Why => put_why(text, queues.why_not(tid).as_ref())?,
        _ => queues.retry(tid),
    }
    Ok(())
}

fn add(
    queues: &mut Queues,
    tid: Tid,
    keys: &[QueueKey],
    text: &mut Text,
) -> Result<(), OutOfMemory> {
    if queues.contains(tid) || keys.len() > MOST_QUEUES || !keys_differ(keys) {
        return text.put_line(b"not asked");
    }
    queues.add(tid, keys)
}

fn claim(queues: &mut Queues, tid: Tid, number: u64, text: &mut Text) -> Result<(), OutOfMemory> {
    match queues.claim(tid, number) {
        Ok(claim) => put_claim(text, Some(&claim)),
        Err(why) => put_why(text, Some(&why)),
    }
}

fn give_up(
    queues: &mut Queues,
    tid: Tid,
    number: u64,
    end: End,
    text: &mut Text,
) -> Result<(), OutOfMemory> {
    let claim = Claim { number, tid };
    if !queues.holds(&claim) {
        return text.put_line(b"not asked");
    }
    match end {
        End::Release => queues.release(claim),
        End::Mark(mark) => queues.mark(claim, mark),
        End::Finish => finish_from::<Brand>(queues, claim, Blank::new(1)),
    }
    Ok(())
}

fn finish_from<L: Ledger>(queues: &mut Queues, claim: Claim, blank: Blank)
    requires held { claim_of claim.tid queues.old ≡ Some claim.number }
    requires name { blank.name ≡ L.name }
    requires parts { blank.parts ≡ L.parts }
    requires some { 0 < blank.parts }
{
    let mut steps: Steps<L> = Steps::new(blank);
    queues.finish(claim, &mut steps);
}

//! A pool runs over a fake desk, and what came of it is told.

ghost use Rattle.std.specs.Prelude.{◌≤◌};

use crate::desk::FakeDesk;
use crate::run::{Place, Run};
use ale_base::OutOfMemory;
use ale_io::{Gate, OpenGate};
use case_gates::{CountingGate, Meeting, MeetingGate};
use dialog_pool::{Desk, PoolEnd, PoolShort, run_pool};
use std::alloc::Global;
use std::sync::{Arc, Wait};
use std::thread::Threads;

/// Lets a pool run, and tells what came of it.
pub(crate) fn found<R: Threads + Wait + Sync>(
    rt: &R,
    alloc: Global,
    run: Run,
) -> Result<Vec<u8>, OutOfMemory> {
    match run.meeting {
        Place::Nowhere => counted(rt, alloc, run),
        Place::Gate => gathered(rt, alloc, run),
        Place::Preparation => met(rt, alloc, run),
    }
}

/// A pool behind a gate that counts.
fn counted<R: Threads + Wait + Sync>(
    rt: &R,
    alloc: Global,
    run: Run,
) -> Result<Vec<u8>, OutOfMemory> {
    let gate = CountingGate::new();
    let desk = FakeDesk::of(alloc, run.works, run.want, None)?;
    let mut text = pooled(rt, alloc, desk, run.workers, &gate)?;
    let passed = gate.passed();
    let line = format!(in alloc; "passed {passed}\n")?;
    text.extend_from_slice(line.as_bytes())?;
    Ok(text)
}

/// A pool behind a gate at which the works wait for each other.
fn gathered<R: Threads + Wait + Sync>(
    rt: &R,
    alloc: Global,
    run: Run,
) -> Result<Vec<u8>, OutOfMemory> {
    let gate = MeetingGate::of(u64::from(run.works));
    let desk = FakeDesk::of(alloc, run.works, run.want, None)?;
    let mut text = pooled(rt, alloc, desk, run.workers, &gate)?;
    put_line_on(&gate.meeting, &mut text)?;
    Ok(text)
}

/// A pool whose preparations wait for each other, behind an open gate.
fn met<R: Threads + Wait + Sync>(rt: &R, alloc: Global, run: Run) -> Result<Vec<u8>, OutOfMemory> {
    let meeting = Arc::new(alloc, Meeting::of(u64::from(run.works)))?;
    let desk = FakeDesk::of(alloc, run.works, run.want, Some(Arc::try_clone(&meeting)?))?;
    let mut text = pooled(rt, alloc, desk, run.workers, &OpenGate)?;
    put_line_on(&meeting, &mut text)?;
    Ok(text)
}

/// Appends the line on a meeting.
fn put_line_on(meeting: &Meeting, text: &mut Vec<u8>) -> Result<(), OutOfMemory> {
    text.extend_from_slice(meeting.told().as_bytes())?;
    text.push(b'\n')?;
    Ok(())
}

/// How a pool ended, and how often the works of its desk were done.
fn pooled<R: Threads + Wait + Sync, G: Gate + Sync>(
    rt: &R,
    alloc: Global,
    desk: FakeDesk,
    workers: u8,
    gate: &G,
) -> Result<Vec<u8>, OutOfMemory>
    requires { (1 ≤ workers) × (workers ≤ 16) }
{
    match run_pool(rt, alloc, desk, workers, gate) {
        Ok(PoolEnd { desk, finished }) => told(alloc, "finished", finished, &desk),
        Err(PoolShort { desk }) => {
            let finished = desk.finished();
            told(alloc, "short, finished", finished, &desk)
        }
    }
}

/// The lines on a desk.
fn told(alloc: Global, how: &str, finished: u64, desk: &FakeDesk) -> Result<Vec<u8>, OutOfMemory> {
    let tally = desk.tally();
    let (once, more, never) = (tally.once, tally.more, tally.never);
    let text = format!(in alloc;
        "{how} {finished}\nonce {once}, more often {more}, never {never}\n"
    )?;
    Ok(Vec::from_slice(alloc, text.as_bytes())?)
}

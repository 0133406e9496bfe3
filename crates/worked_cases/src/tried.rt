//! One run of the top call, and what a case makes of it.

ghost use Rattle.std.specs.Prelude.{◌≡◌, ◌++◌, ℕ, List, [], IfOk, OnOk};
ghost use Rattle.ale_io.specs.Folder.{told_of};
ghost use Rattle.case_form.specs.declared.verdict.Comparison.{Comparison};
ghost use Rattle.worked_cases.specs.Judged.{MayGive, IsTried};
ghost use Rattle.worked_cases.specs.Starts.{IsBegun};

use crate::case::{Failing, Run, Words};
use crate::compared::put_compared;
use crate::held::made_to_hold;
use crate::starts::Contents;
use ale_base::{Items, OutOfMemory};
use ale_host::{Ended, aleflow, out_of_memory};
use ale_io::{Calls, ListClock, MapFiles, VecSink};
use ale_volumes::MemoryVolumes;
use case_form::Comparison;
use case_gates::MeetingGate;
use std::alloc::Global;
use std::sync::Wait;
use std::thread::Threads;

/// Makes a run over these files, from this start, in which these calls fail. It adds what is compared of it, and gives the
/// volumes that it leaves.
pub(crate) fn tried<R: Threads + Wait + Sync>(
    rt: &R,
    alloc: Global,
    run: &Run,
    files: &mut MapFiles,
    start: &Contents,
    failing: &Failing,
    comparisons: &mut Items<Comparison>,
) -> Result<MemoryVolumes, OutOfMemory>
    ensures tried { IfOk result (λ left. (more : List Comparison) × IsTried files.old.files run.now (start.now, failing.now) more left
        × (comparisons.new ≡ comparisons.old ++ more)) }
    ensures kept { (name : List ℕ) → told_of files.new.files name ≡ told_of files.old.files name }
{
    files.calls = Calls::with_failures(Items::from_slice(alloc, failing.reads.as_slice())?);
    let begun = begun(alloc, run, start, failing)?;
    let mut out = VecSink {
        bytes: Vec::new(alloc),
        calls: Calls::with_failures(Items::from_slice(alloc, failing.puts.as_slice())?),
    };
    let gate = gate_of(run.gate);
    let moments = Items::from_slice(alloc, run.moments.as_slice())?;
    let Ended { status, vols } = performed(
        rt, alloc, &run.words, files, &mut out, begun, moments, &gate,
    );
    let printed = out.bytes.as_slice();
    put_compared(
        alloc,
        comparisons,
        run,
        status,
        printed,
        &gate.meeting,
        &vols,
    )?;
    Ok(vols)
}

/// The volumes that a run starts on from this start, of which these calls will fail.
fn begun(
    alloc: Global,
    run: &Run,
    start: &Contents,
    failing: &Failing,
) -> Result<MemoryVolumes, OutOfMemory>
    ensures { IfOk result (IsBegun run.now.holds start.now failing.now.calls) }
{
    let contents = made_to_hold(alloc, run.holds.as_slice(), start)?;
    let calls = Items::from_slice(alloc, failing.calls.as_slice())?;
    MemoryVolumes::with_failures(alloc, contents, calls)
}

/// Runs these words over these files, none of whose reads has failed yet, on these volumes, behind this gate: the
/// status, and the volumes as they are left.
fn performed<R: Threads + Wait + Sync>(
    rt: &R,
    alloc: Global,
    words: &Words,
    files: &mut MapFiles,
    out: &mut VecSink,
    vols: MemoryVolumes,
    moments: Items<u64>,
    gate: &MeetingGate,
) -> Ended<MemoryVolumes>
    requires quiet { files.old.calls.faults ≡ 0 }
    requires empty { out.old.bytes.items ≡ [] }
    ensures gives { MayGive words.now (told_of files.old.files) vols result.vols result.status out.new.bytes.items }
    ensures kept { (name : List ℕ) → told_of files.new.files name ≡ told_of files.old.files name }
{
    match words {
        Words::Given(words) => {
            let mut clock = ListClock::with_moments(moments);
            aleflow(
                rt,
                alloc,
                words.as_slice(),
                files,
                out,
                vols,
                gate,
                &mut clock,
            )
        }
        Words::Wanting => {
            let status = out_of_memory(out);
            Ended { status, vols }
        }
    }
}

/// The gate of a run: open, or one at which so many works meet.
fn gate_of(works: Option<u8>) -> MeetingGate {
    MeetingGate::of(u64::from(works.unwrap_or(0)))
}

//! Runs of the top call, and what a case makes of them.

ghost use Rattle.std.specs.Prelude.{◌≡◌, ℕ, List, [], ◌∷◌, OnOk, IfOk};
ghost use Rattle.ale_io.specs.Folder.{told_of};
ghost use Rattle.case_form.specs.Made.{IsBrokenStepOf};
ghost use Rattle.worked_cases.specs.Judged.{IsMadeOf, AreMadeOf, Adds, tries};
ghost use Rattle.worked_cases.specs.Starts.{empty_volumes};

use crate::case::{Case, Failing, Part, Run};
use crate::reader::read_case;
use crate::starts::{Contents, starts_of};
use crate::tried::tried;
use ale_base::{Items, OutOfMemory};
use ale_io::{Calls, MapFiles};
use ale_volumes::MemoryVolumes;
use case_form::{CaseFault, Comparison, Item, Step, Texts};
use std::alloc::Global;
use std::sync::Wait;
use std::thread::Threads;

/// The steps of a case, one for each of its parts, in order.
pub(crate) fn steps_of_case<R: Threads + Wait + Sync>(
    rt: &R,
    alloc: Global,
    case: Case,
) -> Result<Items<Step>, CaseFault>
    ensures { IfOk result (λ steps. AreMadeOf case.files (empty_volumes ∷ []) case.parts.items steps) }
{
    let Case {
        files,
        texts,
        parts,
    } = case;
    let mut files = MapFiles {
        files,
        calls: Calls::without_failures(alloc),
    };
    let mut vols = Vec::new(alloc);
    vols.push(MemoryVolumes::new(alloc))?;
    let mut steps = Items::new(alloc);
    for part in parts {
        let (step, left) = step_of_part(rt, alloc, &texts, part, &mut files, vols)?;
        vols = left;
        steps.push(step)?;
    }
    Ok(steps)
}

/// The step of a part, where the run before it left these volumes, and the volumes that are left behind the part.
fn step_of_part<R: Threads + Wait + Sync>(
    rt: &R,
    alloc: Global,
    texts: &Texts,
    part: Part,
    files: &mut MapFiles,
    vols: Vec<MemoryVolumes>,
) -> Result<(Step, Vec<MemoryVolumes>), CaseFault>
    ensures made { IfOk result (λ made. IsMadeOf files.old.files vols.items part made.0 made.1.items) }
    ensures kept { (name : List ℕ) → told_of files.new.files name ≡ told_of files.old.files name }
{
    match part {
        Part::Run(run) => Ok(step_of_run(rt, alloc, run, files, vols.as_slice())?),
        Part::Broken(item) => {
            let step = step_of_broken(alloc, texts, &item)?;
            Ok((step, vols))
        }
    }
}

/// What came of the runs that are made for one step.
#[derive(Drop)]
pub(crate) struct Made {
    /// What is compared of them, in order.
    pub(crate) comparisons: Items<Comparison>,
    /// The volumes that each left.
    pub(crate) left: Vec<MemoryVolumes>,
}

/// The step of a run over these files, where the run before it left these volumes, and what it leaves.
fn step_of_run<R: Threads + Wait + Sync>(
    rt: &R,
    alloc: Global,
    run: Run,
    files: &mut MapFiles,
    before: &[MemoryVolumes],
) -> Result<(Step, Vec<MemoryVolumes>), OutOfMemory>
    ensures made { IfOk result (λ made. IsMadeOf files.old.files before.now (Part.Run run) made.0 made.1.items) }
    ensures kept { (name : List ℕ) → told_of files.new.files name ≡ told_of files.old.files name }
{
    let mut made = Made {
        comparisons: Items::new(alloc),
        left: Vec::new(alloc),
    };
    let starts = starts_of(alloc, run.start, before)?;
    try_starts(rt, alloc, &run, files, starts.as_slice(), &mut made)?;
    let Made { comparisons, left } = made;
    let step = Step {
        line: run.line,
        differs: run.differs,
        comparisons,
    };
    Ok((step, left))
}

/// Makes a run from each of these starts.
fn try_starts<R: Threads + Wait + Sync>(
    rt: &R,
    alloc: Global,
    run: &Run,
    files: &mut MapFiles,
    starts: &[Contents],
    made: &mut Made,
) -> Result<(), OutOfMemory>
    ensures adds { OnOk result (Adds files.old.files run.now (tries run.now.failing starts.now) made.old made.new) }
    ensures kept { (name : List ℕ) → told_of files.new.files name ≡ told_of files.old.files name }
{
    for start in starts {
        try_failures(rt, alloc, run, files, start, run.failing.as_slice(), made)?;
    }
    Ok(())
}

/// Makes a run from this start, once for each of the choices of what fails in it.
fn try_failures<R: Threads + Wait + Sync>(
    rt: &R,
    alloc: Global,
    run: &Run,
    files: &mut MapFiles,
    start: &Contents,
    failures: &[Failing],
    made: &mut Made,
) -> Result<(), OutOfMemory>
    ensures adds { OnOk result (Adds files.old.files run.now (tries failures.now (start.now ∷ [])) made.old made.new) }
    ensures kept { (name : List ℕ) → told_of files.new.files name ≡ told_of files.old.files name }
{
    for failing in failures {
        let comparisons = &mut made.comparisons;
        let left = tried(rt, alloc, run, files, start, failing, comparisons)?;
        made.left.push(left)?;
    }
    Ok(())
}

/// The step of a text that is no case, beside these texts: which line breaks which rule.
fn step_of_broken(alloc: Global, texts: &Texts, item: &Item) -> Result<Step, CaseFault>
    ensures { IfOk result (IsBrokenStepOf item.now.line item.now.differs item.now.rest.items) }
{
    let text = item.text(alloc)?;
    let fault = read_case(alloc, texts, "broken.case", text.as_slice()).err();
    Step::of_broken(alloc, item, fault)
}

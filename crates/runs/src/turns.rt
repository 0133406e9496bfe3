//! The commands of a script, one after the other.

ghost use Rattle.std.specs.Prelude.{◌≡◌, ◌≤◌, ℕ, List, Ok, IfOk};
ghost use Rattle.document_state.specs.declared.model_rules.ModelRules.{ModelRules};
ghost use Rattle.document_state.specs.Meaning.{model_meaning};
ghost use Rattle.landscape.specs.Crashes.{GoesSoundly, LeavesSoundLogs};
ghost use Rattle.unit_landscape.specs.Kept.{IsLandscape};
ghost use Rattle.runs.specs.Run.{AreAsked, Run};
ghost use Rattle.runs.specs.Turns.{Turn, at_moment, first_faulted, first_overran, length_at};
ghost use Rattle.runs.specs.Text.{IsPrintable, shown};
ghost use Rattle.runs.specs.Put.{IsPutAt};
ghost use Rattle.runs.specs.steps.Put.{GivesOne, IsReported, IsTurn, end_behind, halted_as, last_end_of};

use crate::lengths::{DownBy, first_down_by, size_of};
use crate::performing::{Performed, perform};
use crate::report::shown;
use crate::{Answered, Crew, Halt, Inputs, RunEnd, Stage};
use ale_base::SystemNo;
use ale_io::{Clock, Files, Gate, Sink};
use ale_volumes::Volumes;
use script_text::Command;
use std::alloc::Global;
use std::sync::Wait;
use std::thread::Threads;

/// A run that ended: why, and what it left.
#[derive(Drop)]
pub struct Ran<V: Volumes> {
    /// What it left.
    pub stage: Stage<V>,
    /// Why it ended.
    pub end: RunEnd,
}

/// How a command ends.
#[derive(Clone, Copy, PartialEq, Eq)]
pub(crate) enum TurnEnd {
    /// It was answered, and its text was put.
    Done,
    /// The sink did not take its text.
    WriteFailed,
    /// A system was to be opened, and its volume holds another log than was kept.
    Changed(SystemNo, u64),
    /// Memory ran out.
    OutOfMemory,
}

/// Carries out commands one after the other, and puts the text of each behind it; a drain is done by the workers of a crew. Before each
/// command the clock is asked, and its records are written with that moment. A text that the sink did not take ends the run behind its
/// command; want of memory, and an `open` that finds another log than was kept, end it in theirs, which is not answered. A system that goes
/// down ends nothing. A `remodel` reads a file; by design, and by no clause of this call, it reads it
/// once and when it comes, and no other command makes a call on the files.
///
/// Whatever a crash leaves of all volumes at one moment of the run stands for logs that are sound. No record is missing that a log had before the
/// run, or when a command ended before that moment.
///
/// Where nothing holds units up at first, and up to a drain no command does, what is sent is offered by its receiver and all systems are up,
/// each unit that was committed went its whole way behind that drain.
pub fn run_script<
    R: Threads + Wait + Sync,
    V: Volumes + Send,
    G: Gate + Sync,
    F: Files,
    K: Sink,
    C: Clock,
>(
    crew: &Crew<'_, R, G>,
    alloc: Global,
    stage: Stage<V>,
    inputs: &Inputs,
    commands: &[Command],
    files: &mut F,
    out: &mut K,
    clock: &mut C,
) -> Ran<V>
    ensures run { (turns : List (Turn V))
        × (run : Run V.disk inputs.now (F.told files.old) commands.now stage result.stage (F.faults files.old) (F.faults files.new) result.end turns)
        × IsPutAt result.end (K.contents out.old) (K.contents out.new) (K.faults out.old) (K.faults out.new) turns
        × AreAsked (C.told clock.new) (C.given clock.old) (C.given clock.new) turns run.halted }
    ensures told { C.told clock.new → C.told clock.old }
    ensures counted { K.faults out.old ≤ K.faults out.new }
    ensures files { (name : List ℕ) → F.told files.new name ≡ F.told files.old name }
    ensures files_counted { F.faults files.old ≤ F.faults files.new }
{
    let _ = stage.landscape.world();
    let mut stage = stage;
    for command in commands {
        let Turned { stage: after, end } = turn(
            crew, alloc, stage, inputs, command, files, out, clock,
        );
        stage = after;
        match behind(end) {
            None => {}
            Some(end) => return Ran { stage, end },
        }
    }
    let end = last_end(&stage);
    Ran { stage, end }
}

/// A command that ended, and what it left.
#[derive(Drop)]
struct Turned<V: Volumes> {
    stage: Stage<V>,
    end: TurnEnd,
}

/// Carries out a command, and puts its text.
fn turn<R: Threads + Wait + Sync, V: Volumes + Send, G: Gate + Sync, F: Files, K: Sink, C: Clock>(
    crew: &Crew<'_, R, G>,
    alloc: Global,
    stage: Stage<V>,
    inputs: &Inputs,
    command: &Command,
    files: &mut F,
    out: &mut K,
    clock: &mut C,
) -> Turned<V>
    requires safe { IsLandscape (λ (rules : ModelRules). model_meaning rules.systems) stage.landscape.world }
    ensures turn { (moment : ℕ)
        × IsTurn V.disk inputs.now (F.told files.old) (F.faults files.old) (F.faults files.new) result.end moment command.now stage result.stage
        (K.contents out.old) (K.contents out.new) (K.faults out.old) (K.faults out.new)
        × GivesOne (C.told clock.new) (C.given clock.old) (C.given clock.new) moment }
    ensures sound { GoesSoundly V.disk stage.landscape result.stage.landscape }
    ensures now { LeavesSoundLogs V.disk result.stage.landscape result.stage.landscape }
    ensures safe { IsLandscape (λ (rules : ModelRules). model_meaning rules.systems) result.stage.landscape.world }
    ensures told { C.told clock.new → C.told clock.old }
    ensures counted { K.faults out.old ≤ K.faults out.new }
    ensures files { (name : List ℕ) → F.told files.new name ≡ F.told files.old name }
    ensures files_counted { F.faults files.old ≤ F.faults files.new }
{
    let moment = clock.now();
    let stage = begin(stage, moment);
    let Performed { stage, answer } = perform(crew, alloc, stage, inputs, files, &command.form);
    let _ = stage.landscape.world();
    let end = report(alloc, &stage, command, answer, out);
    Turned { stage, end }
}

/// Records are written with this moment from now on.
fn begin<V: Volumes>(stage: Stage<V>, moment: u64) -> Stage<V>
    ensures { result ≡ at_moment moment stage }
{
    let mut stage = stage;
    stage.landscape.set_moment(moment);
    stage
}

/// Puts the text of a command that was answered so.
fn report<V: Volumes, K: Sink>(
    alloc: Global,
    stage: &Stage<V>,
    command: &Command,
    answer: Result<Answered, Halt>,
    out: &mut K,
) -> TurnEnd
    requires { IfOk answer IsPrintable }
    ensures reported { IsReported result answer (λ answered. shown command.now answered stage.now)
        (K.contents out.old) (K.contents out.new) (K.faults out.old) (K.faults out.new) }
    ensures counted { K.faults out.old ≤ K.faults out.new }
{
    match answer {
        Ok(answered) => put_shown(alloc, stage, command, &answered, out),
        Err(halt) => halted(halt),
    }
}

/// How a command ends that is not answered.
fn halted(halt: Halt) -> TurnEnd
    ensures { result ≡ halted_as halt }
{
    match halt {
        Halt::Changed(system, number) => TurnEnd::Changed(system, number),
        Halt::OutOfMemory => TurnEnd::OutOfMemory,
    }
}

/// Puts the text of a command that was answered.
fn put_shown<V: Volumes, K: Sink>(
    alloc: Global,
    stage: &Stage<V>,
    command: &Command,
    answered: &Answered,
    out: &mut K,
) -> TurnEnd
    requires { IsPrintable answered.now }
    ensures reported { IsReported result (Ok answered.now) (λ answered. shown command.now answered stage.now)
        (K.contents out.old) (K.contents out.new) (K.faults out.old) (K.faults out.new) }
    ensures counted { K.faults out.old ≤ K.faults out.new }
{
    match shown(alloc, command, answered, stage) {
        Err(_) => TurnEnd::OutOfMemory,
        Ok(text) => match out.put(text.as_slice()) {
            Ok(()) => TurnEnd::Done,
            Err(_) => TurnEnd::WriteFailed,
        },
    }
}

/// Why a run ends behind a command that ended so. None where it goes on.
fn behind(end: TurnEnd) -> Option<RunEnd>
    ensures { result ≡ end_behind end }
{
    match end {
        TurnEnd::Done => None,
        TurnEnd::WriteFailed => Some(RunEnd::WriteFailed),
        TurnEnd::Changed(system, number) => Some(RunEnd::Changed(system, number)),
        TurnEnd::OutOfMemory => Some(RunEnd::OutOfMemory),
    }
}

/// The ending behind the last command, by what systems are down.
fn last_end<V: Volumes>(stage: &Stage<V>) -> RunEnd
    ensures { result ≡ last_end_of (length_at stage.now) (first_faulted stage.now) (first_overran stage.now) }
{
    let systems = stage.landscape.world().systems.as_slice();
    if let Some(system) = first_down_by(DownBy::Fault, &stage.landscape, systems) {
        return RunEnd::DownByFault(system);
    }
    match first_down_by(DownBy::Overrun, &stage.landscape, systems) {
        Some(system) => RunEnd::DownFull(system, size_of(stage.landscape.cause(system))),
        None => RunEnd::Whole,
    }
}

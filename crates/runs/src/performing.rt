//! A command is carried out. Its forms are, by file: in `committing` those that commit documents, in `changing` those that change
//! objects and pass documents to the application again, in `operating` those of an operator, in `remodelling` the one that replaces the
//! model, in `showing` the listings.

ghost use Rattle.std.specs.Prelude.{◌≡◌, ◌≢◌, ◌≤◌, ℕ, List, IfOk};
ghost use Rattle.script_text.specs.declared.form.Form.TheVariants as form;
ghost use Rattle.script_text.specs.declared.form.Form.TheVariants.{Drain, Remodel};
ghost use Rattle.runs.specs.declared.inputs.Inputs.{Inputs as InputsOf};
ghost use Rattle.landscape.specs.Crashes.{GoesSoundly};
ghost use Rattle.runs.specs.Does.{Does, Done, Goes, drained_as};
ghost use Rattle.runs.specs.Text.{IsPrintable};

mod changing;
mod committing;
mod operating;
mod remodelling;
mod showing;

use crate::answered::plain;
use crate::{Answered, Crew, Halt, Inputs, Stage};
use ale_base::OutOfMemory;
use ale_io::{Files, Gate};
use ale_volumes::Volumes;
use changing::{app, put, repost};
use committing::{dispatch, gather, send};
use drain_desk::{Drained, drain};
use operating::{crash, late, open, retry, start, stop, wire};
use remodelling::remodel;
use report_text::Reply;
use script_text::{FileName, Form};
use showing::{show_doc, show_docs, show_history, show_objects, show_queues, show_units};
use std::alloc::Global;
use std::sync::Wait;
use std::thread::Threads;

/// A command that ended: its answer, or none where memory ran out, and what it left.
#[derive(Drop)]
pub(crate) struct Performed<V: Volumes> {
    pub(crate) stage: Stage<V>,
    pub(crate) answer: Result<Answered, Halt>,
}

/// Carries out a command. One that replaces the model reads a file; no other makes a call on the files.
pub(crate) fn perform<R: Threads + Wait + Sync, V: Volumes + Send, G: Gate + Sync, F: Files>(
    crew: &Crew<'_, R, G>,
    alloc: Global,
    stage: Stage<V>,
    inputs: &Inputs,
    files: &mut F,
    form: &Form,
) -> Performed<V>
    ensures does { Done V.disk inputs.now stage result.answer result.stage (F.told files.old) (F.faults files.old) (F.faults files.new) form.now }
    ensures calls { Goes V.disk inputs.now stage result.answer result.stage form.now }
    ensures printable { IfOk result.answer IsPrintable }
    ensures kept { (name : List ℕ) → F.told files.new name ≡ F.told files.old name }
    ensures counted { F.faults files.old ≤ F.faults files.new }
{
    match form {
        Form::Drain => drained(crew, alloc, stage),
        Form::Remodel { file } => replaced(alloc, stage, files, file),
        _ => {
            let mut stage = stage;
            let answer = carry_out(&mut stage, inputs, form);
            Performed { stage, answer }
        }
    }
}

/// Replaces the model by that of a file.
fn replaced<V: Volumes, F: Files>(
    alloc: Global,
    stage: Stage<V>,
    files: &mut F,
    file: &FileName,
) -> Performed<V>
    ensures does { (inputs : InputsOf) → Done V.disk inputs stage result.answer result.stage (F.told files.old) (F.faults files.old) (F.faults files.new)
        (form.Remodel file.now) }
    ensures calls { GoesSoundly V.disk stage.landscape result.stage.landscape }
    ensures printable { IfOk result.answer IsPrintable }
    ensures kept { (name : List ℕ) → F.told files.new name ≡ F.told files.old name }
    ensures counted { F.faults files.old ≤ F.faults files.new }
{
    let mut stage = stage;
    let answer = remodel(alloc, &mut stage, files, file);
    Performed { stage, answer }
}

/// Works until nothing is offered, by the workers of a run.
fn drained<R: Threads + Wait + Sync, V: Volumes + Send, G: Gate + Sync>(
    crew: &Crew<'_, R, G>,
    alloc: Global,
    stage: Stage<V>,
) -> Performed<V>
    ensures does { (inputs : InputsOf) → Does V.disk inputs stage result.answer result.stage form.Drain }
    ensures calls { GoesSoundly V.disk stage.landscape result.stage.landscape }
    ensures printable { IfOk result.answer IsPrintable }
{
    let Stage { landscape, wires } = stage;
    let Drained {
        landscape,
        wires,
        end,
    } = drain(crew.rt, alloc, landscape, wires, crew.workers, crew.gate);
    let answer = finished(end);
    Performed {
        stage: Stage { landscape, wires },
        answer,
    }
}

/// How a drain is answered.
fn finished(end: Result<u64, OutOfMemory>) -> Result<Answered, Halt>
    ensures answer { result ≡ drained_as end }
    ensures printable { IfOk result IsPrintable }
{
    match end {
        Ok(count) => plain(Reply::Finished(count)),
        Err(OutOfMemory) => Err(Halt::OutOfMemory),
    }
}

/// Carries out a command that is no drain, which takes what it works on whole, and does not replace the model.
fn carry_out<V: Volumes>(
    stage: &mut Stage<V>,
    inputs: &Inputs,
    form: &Form,
) -> Result<Answered, Halt>
    requires drain { form.now ≢ Drain }
    requires model { (file : List ℕ) → form.now ≢ Remodel file }
    ensures does { Does V.disk inputs.now stage.old result stage.new form.now }
    ensures calls { Goes V.disk inputs.now stage.old result stage.new form.now }
    ensures printable { IfOk result IsPrintable }
{
    match form {
        // `perform` hands on neither.
        Form::Drain | Form::Remodel { .. } => unreachable!(),
        Form::Send { sys, number } => send(stage, inputs, sys.as_slice(), *number),
        Form::Put { sys, change } => put(stage, inputs, sys.as_slice(), change),
        Form::Gather { sys, message } => {
            gather(stage, inputs, sys.as_slice(), message.as_slice())
        }
        Form::Dispatch { sys } => dispatch(stage, inputs, sys.as_slice()),
        Form::App { sys, doc } => app(stage, inputs, sys.as_slice(), *doc),
        Form::Repost { sys, doc } => repost(stage, inputs, sys.as_slice(), *doc),
        Form::Wire { tid, letters } => wire(stage, *tid, letters.as_slice()),
        Form::Late { tid } => late(stage, *tid),
        Form::Retry { sys, tid } => retry(stage, inputs, sys.as_slice(), *tid),
        Form::Stop {
            sys,
            destination,
            queue,
        } => stop(stage, inputs, sys.as_slice(), destination, queue.as_slice()),
        Form::Start {
            sys,
            destination,
            queue,
        } => start(stage, inputs, sys.as_slice(), destination, queue.as_slice()),
        Form::Crash { sys } => crash(stage, inputs, sys.as_slice()),
        Form::Open { sys } => open(stage, inputs, sys.as_slice()),
        Form::ShowDocs { sys } => show_docs(stage, inputs, sys.as_slice()),
        Form::ShowDoc { sys, doc } => show_doc(stage, inputs, sys.as_slice(), *doc),
        Form::ShowHistory { sys, way, doc } => {
            show_history(stage, inputs, sys.as_slice(), *way, *doc)
        }
        Form::ShowUnits { sys } => show_units(stage, inputs, sys.as_slice()),
        Form::ShowQueues { sys } => show_queues(stage, inputs, sys.as_slice()),
        Form::ShowObjects { sys } => show_objects(stage, inputs, sys.as_slice()),
    }
}

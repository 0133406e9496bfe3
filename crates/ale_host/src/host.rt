//! The top call. Nothing else reads a file or puts a text.

ghost use Rattle.std.specs.Prelude.{◌≡◌, ◌≢◌, ◌⊎◌, ℕ, List, ◌≤◌, map, string_bytes, IfErr, IfOk};
ghost use Rattle.std.specs.Result.{result_err};
ghost use Rattle.std.specs.Io.KnownBytes.{Appends};
ghost use Rattle.ale_base.specs.Faults.{Rose};
ghost use Rattle.ale_io.specs.Written.{AppendsFront};
ghost use Rattle.runs.specs.Put.{IsPart, IsPut};
ghost use Rattle.ale_host.specs.declared.ending.Ending.{Ending};
ghost use Rattle.ale_host.specs.Inputs.{EndsRun};
ghost use Rattle.ale_host.specs.Ending.{Ends, EndsPass, EndsFile, IsPrintable, status_of, text_of};
ghost use Rattle.ale_host.specs.EndsSo.{EndsSo, IsFront};
ghost use Rattle.ale_host.specs.Prepared.{EndsAs, IsAsked, IsRead};
ghost use Rattle.ale_host.specs.Reads.{ReadsOnly};

use crate::ending::{Ending, OUT_OF_MEMORY};
use crate::inputs::{read_documents, read_masters, read_model, read_script};
use crate::loading::read_load;
use crate::prepared::{Prepared, prepared_from};
use crate::running::{Report, run};
use crate::words::{Form, form_of, workers_of};
use ale_io::{Clock, Files, Gate, Sink};
use ale_volumes::Volumes;
use runs::Crew;
use std::alloc::Global;
use std::sync::Wait;
use std::thread::Threads;

/// The status where the sink did not take all of the text.
pub(crate) const WRITE_FAULT: u8 = 6;

/// A call that ended: its exit status, and the volumes.
#[derive(Drop)]
pub struct Ended<V> {
    /// The exit status.
    pub status: u8,
    /// The volumes.
    pub vols: V,
}

/// Does what the words ask for, prints its text to `out`, and gives the exit status and the volumes.
///
/// The status is 0 where the command was carried out, 1 where the words have none of the three forms, 2 where the text of
/// a model is refused, 3 where a line of a document file is bad, 4 where a line of a script is no command, 5 where a file
/// was not read, 6 where the sink did not take all of the text, 7 where the volumes hold no logs of the model's systems, or an
/// `open` found another log than was kept, 8 where a volume failed as the systems were opened, 9 where memory ran out, 10 where a
/// line passes a limit of its file, 11 where a system is down by a fault of its volume and 12 where it is down because a record did
/// not fit.
///
/// The files of `run` are read in order, and the first one that is not read or is refused ends it. Then the clock is asked and the
/// systems are opened over the volumes, system i on volume i - 1: each goes on from the log that it holds, or begins with a Genesis.
/// And then the commands are carried out, each with the moment that the clock gives for it; a `remodel` reads a file of its own.
/// By design, and by no clause, it does so once and when it comes, and a drain is done by as many dialog workers as the last word says, which pass the gate before
/// each work. The text of each command is put behind it. A system that goes down ends nothing. A load is the same with the texts that
/// it makes from its number, but for what is put: one line at its end, which tells how much the logs hold then.
///
/// With each status but 6 the text that was put is exactly that of the ending, and with 6 it is a part of it that begins at its front,
/// and that has at least the text of all commands but the last one that was carried out. The bytes of a document file have one ending.
pub fn aleflow<
    R: Threads + Wait + Sync,
    G: Gate + Sync,
    F: Files,
    K: Sink,
    V: Volumes + Send,
    C: Clock,
>(
    rt: &R,
    alloc: Global,
    words: &[String],
    files: &mut F,
    out: &mut K,
    vols: V,
    gate: &G,
    clock: &mut C,
) -> Ended<V>
    ensures ended { result.status ≢ 6 → (printed : List ℕ) × ((sure : List ℕ)
        × EndsSo V.disk
        (map string_bytes words.now) (F.told files.old) (F.faults files.old) (F.faults files.new) vols result.vols
        (C.told clock.new) (C.given clock.old) (C.given clock.new) result.status printed sure
        × Appends (K.contents out.old) (K.contents out.new) printed
        × (K.faults out.new ≡ K.faults out.old)) }
    ensures write_fault { result.status ≡ 6 → (status : ℕ) × ((printed : List ℕ) × ((sure : List ℕ)
        × EndsSo V.disk
        (map string_bytes words.now) (F.told files.old) (F.faults files.old) (F.faults files.new) vols result.vols
        (C.told clock.new) (C.given clock.old) (C.given clock.new) status printed sure
        × IsFront (K.contents out.old) (K.contents out.new) (K.faults out.old) (K.faults out.new) printed sure)) }
    ensures one_ending { (bytes : List ℕ) (one other : Ending) → EndsFile bytes one → EndsFile bytes other → one ≡ other }
    ensures files_kept { (name : List ℕ) → F.told files.new name ≡ F.told files.old name }
    ensures files_counted { F.faults files.old ≤ F.faults files.new }
    ensures sink_counted { K.faults out.old ≤ K.faults out.new }
{
    match asked(alloc, words, files) {
        Err(ending) => {
            let status = print(alloc, &ending, out);
            Ended { status, vols }
        }
        Ok(Order { prepared, report }) => {
            let workers = workers_of(words);
            let crew = Crew { rt, gate, workers };
            run(&crew, alloc, prepared, report, files, out, vols, clock)
        }
    }
}

/// Prints the text of an ending, or that memory ran out for it, and gives the exit status.
fn print<K: Sink>(alloc: Global, ending: &Ending, out: &mut K) -> u8
    requires { IsPrintable ending.now }
    ensures ended { result ≢ 6 → (its : Ending) × EndsAs ending.now its × (result ≡ status_of its)
        × IsPut (K.contents out.old) (K.contents out.new) (K.faults out.old) (K.faults out.new) (text_of its) }
    ensures write_fault { result ≡ 6 → (its : Ending) × EndsAs ending.now its
        × IsPart (K.contents out.old) (K.contents out.new) (K.faults out.old) (K.faults out.new) (text_of its) }
    ensures counted { K.faults out.old ≤ K.faults out.new }
{
    match ending.text(alloc) {
        Ok(text) => put(out, ending.status(), text.as_slice()),
        Err(_) => out_of_memory(out),
    }
}

/// Prints that memory ran out before the words could be read, and gives the exit status: 9, or 6 where the sink did not
/// take all of the text.
pub fn out_of_memory<K: Sink>(out: &mut K) -> u8
    ensures ended { result ≢ 6 → (result ≡ status_of Ending.OutOfMemory)
        × Appends (K.contents out.old) (K.contents out.new) (text_of Ending.OutOfMemory)
        × (K.faults out.new ≡ K.faults out.old) }
    ensures write_fault { result ≡ 6 → Rose (K.faults out.old) (K.faults out.new)
        × AppendsFront (K.contents out.old) (K.contents out.new) (text_of Ending.OutOfMemory) }
    ensures counted { K.faults out.old ≤ K.faults out.new }
{
    put(out, Ending::OutOfMemory.status(), OUT_OF_MEMORY)
}

/// Puts the text of an ending, and gives its status, or that of a write fault.
pub(crate) fn put<K: Sink>(out: &mut K, status: u8, text: &[u8]) -> u8
    requires { status ≢ 6 }
    ensures ended { result ≢ 6 → (result ≡ status) × Appends (K.contents out.old) (K.contents out.new) text.now
        × (K.faults out.new ≡ K.faults out.old) }
    ensures write_fault { result ≡ 6 → Rose (K.faults out.old) (K.faults out.new)
        × AppendsFront (K.contents out.old) (K.contents out.new) text.now }
    ensures counted { K.faults out.old ≤ K.faults out.new }
{
    match out.put(text) {
        Ok(()) => status,
        Err(_) => WRITE_FAULT,
    }
}

/// What is to be carried out, and what is reported of it.
#[derive(Drop)]
struct Order {
    prepared: Prepared,
    report: Report,
}

/// What these words ask for: a run whose files were read, or a load; or how else it ends.
fn asked<F: Files>(alloc: Global, words: &[String], files: &mut F) -> Result<Order, Ending>
    ensures ends { IfErr result (Ends (map string_bytes words.now) (F.told files.old) (Rose (F.faults files.old) (F.faults files.new))) }
    ensures runs { IfOk result (IsAsked (map string_bytes words.now) (F.told files.old)) }
    ensures only { ReadsOnly (F.told files.old) (F.told files.new) (F.faults files.old) (F.faults files.new) (result_err result) }
{
    match form_of(words) {
        None => Err(Ending::Usage),
        Some(Form::Run) => {
            let model = words[1].as_str();
            match read_run(alloc, model, words[2].as_str(), words[3].as_str(), files) {
                Ok(prepared) => Ok(Order {
                    prepared,
                    report: Report::Commands,
                }),
                Err(ending) => Err(ending),
            }
        }
        Some(Form::Load(masters)) => match read_load(alloc, masters) {
            Ok(prepared) => Ok(Order {
                prepared,
                report: Report::Counts,
            }),
            Err(ending) => Err(ending),
        },
        Some(Form::Pass) => Err(pass(alloc, words[1].as_str(), files)),
    }
}

/// What `run` has from the files of these names, of which each is read before the next; or how it ends at one of them.
fn read_run<F: Files>(
    alloc: Global,
    model: &str,
    documents: &str,
    script: &str,
    files: &mut F,
) -> Result<Prepared, Ending>
    ensures ends { IfErr result (EndsRun (F.told files.old) (Rose (F.faults files.old) (F.faults files.new)) model.now documents.now script.now) }
    ensures says { IfOk result (IsRead (F.told files.old) model.now documents.now script.now) }
    ensures only { ReadsOnly (F.told files.old) (F.told files.new) (F.faults files.old) (F.faults files.new) (result_err result) }
{
    let said = read_model(alloc, model, files)?;
    let masters = read_masters(alloc, documents, files)?;
    let commands = read_script(alloc, script, files)?;
    Ok(prepared_from(said, masters, commands))
}

/// How `pass` over the file of this name ends.
fn pass<F: Files>(alloc: Global, name: &str, files: &mut F) -> Ending
    ensures ends { (result ≡ Ending.OutOfMemory)
        ⊎ EndsPass name.now (F.told files.old name.now) (Rose (F.faults files.old) (F.faults files.new)) result }
    ensures only { ReadsOnly (F.told files.old) (F.told files.new) (F.faults files.old) (F.faults files.new) (Some result) }
{
    match read_documents(alloc, name, files) {
        Ok(documents) => Ending::Passed(documents),
        Err(ending) => ending,
    }
}

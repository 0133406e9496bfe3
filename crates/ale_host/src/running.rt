//! A run whose files were read: the systems are opened, the commands are carried out, and the last line is put.

ghost use Rattle.std.specs.Prelude.{◌≡◌, ◌≢◌, ◌≤◌, ℕ, List, Some, length, IfOk};
ghost use Rattle.std.specs.Arc.{arc_value};
ghost use Rattle.said_models.specs.Said.{said};
ghost use Rattle.unit_landscape.specs.declared.beginning.TheConstants.{MOST_TEXT};
ghost use Rattle.dist_model.specs.Named.{system_name};
ghost use Rattle.report_text.specs.declared.faults.FaultLine.TheVariants as last;
ghost use Rattle.report_text.specs.FaultLine.{fault_line};
ghost use Rattle.runs.specs.declared.run_end.RunEnd.TheVariants as run_end;
ghost use Rattle.runs.specs.Put.{IsPart, IsPut};
ghost use Rattle.ale_host.specs.Closing.{IsClosed};
ghost use Rattle.ale_host.specs.EndsSo.{IsFront};
ghost use Rattle.ale_host.specs.declared.running.Report.TheVariants as report_of;
ghost use Rattle.ale_host.specs.Running.{EndsCounting, IsCountLine, RanFrom, RunsTo};

use crate::ending::OUT_OF_MEMORY;
use crate::host::{Ended, WRITE_FAULT, put};
use crate::loading::load_line;
use crate::prepared::Prepared;
use crate::unopened::{journals_text, put_unopened};
use ale_base::{Items, OutOfMemory, SystemNo};
use ale_io::{Clock, Files, Gate, Sink, SinkFailed};
use ale_volumes::Volumes;
use dist_model::Model;
use landscape::{Counts, Landscape, OpenEnd};
use report_text::{FaultLine, fault_line};
use runs::{Crew, Inputs, Ran, RunEnd, Stage, run_script};
use script_text::Command;
use status_log::Cause;
use std::alloc::Global;
use std::sync::Wait;
use std::thread::Threads;
use unit_works::Wires;

/// What is reported of what was carried out.
#[derive(Clone, Copy, PartialEq, Eq)]
pub(crate) enum Report {
    /// The text of each command, behind it.
    Commands,
    /// How much the logs hold at the end.
    Counts,
}

/// Carries out a run or a load: the clock is asked, the systems are opened over the volumes with that moment, and then the commands are carried out.
pub(crate) fn run<
    R: Threads + Wait + Sync,
    G: Gate + Sync,
    F: Files,
    V: Volumes + Send,
    K: Sink,
    C: Clock,
>(
    crew: &Crew<'_, R, G>,
    alloc: Global,
    prepared: Prepared,
    report: Report,
    files: &mut F,
    out: &mut K,
    vols: V,
    clock: &mut C,
) -> Ended<V>
    requires said { said prepared.text ≡ Some (arc_value prepared.model) }
    requires short { length prepared.text ≤ MOST_TEXT }
    requires names { arc_value prepared.inputs.model ≡ arc_value prepared.model }
    ensures ended { result.status ≢ 6 → (printed : List ℕ) × ((sure : List ℕ)
        × RunsTo V.disk
        prepared.text (arc_value prepared.model) prepared.inputs.masters prepared.commands vols result.vols
        report (F.told files.old) (F.faults files.old) (F.faults files.new) (C.told clock.new) (C.given clock.old) (C.given clock.new) result.status printed sure
        × IsPut (K.contents out.old) (K.contents out.new) (K.faults out.old) (K.faults out.new) printed) }
    ensures write_fault { result.status ≡ 6 → (status : ℕ) × ((printed : List ℕ) × ((sure : List ℕ)
        × RunsTo V.disk
        prepared.text (arc_value prepared.model) prepared.inputs.masters prepared.commands vols result.vols
        report (F.told files.old) (F.faults files.old) (F.faults files.new) (C.told clock.new) (C.given clock.old) (C.given clock.new) status printed sure
        × IsFront (K.contents out.old) (K.contents out.new) (K.faults out.old) (K.faults out.new) printed sure)) }
    ensures counted { K.faults out.old ≤ K.faults out.new }
    ensures files { (name : List ℕ) → F.told files.new name ≡ F.told files.old name }
    ensures files_counted { F.faults files.old ≤ F.faults files.new }
{
    let Prepared {
        text,
        model,
        inputs,
        commands,
    } = prepared;
    let moment = clock.now();
    match Landscape::open(alloc, model, text, vols, moment) {
        Err(OpenEnd { why, vols }) => {
            let status = put_unopened(alloc, &inputs.model, why, out);
            Ended { status, vols }
        }
        Ok(landscape) => {
            let commands = commands.as_slice();
            match report {
                Report::Commands => run_opened(
                    crew, alloc, landscape, &inputs, commands, files, out, clock,
                ),
                Report::Counts => load_opened(
                    crew, alloc, landscape, &inputs, commands, files, out, clock,
                ),
            }
        }
    }
}

/// Carries out commands, and puts the last line.
fn run_opened<
    R: Threads + Wait + Sync,
    G: Gate + Sync,
    F: Files,
    V: Volumes + Send,
    K: Sink,
    C: Clock,
>(
    crew: &Crew<'_, R, G>,
    alloc: Global,
    landscape: Landscape<V>,
    inputs: &Inputs,
    commands: &[Command],
    files: &mut F,
    out: &mut K,
    clock: &mut C,
) -> Ended<V>
    ensures ended { result.status ≢ 6 → (printed : List ℕ) × ((sure : List ℕ)
        × RanFrom V.disk
        report_of.Commands (arc_value inputs.now.model) inputs.now (F.told files.old) commands.now landscape result.vols
        (F.faults files.old) (F.faults files.new) (C.told clock.new) (C.given clock.old) (C.given clock.new) result.status printed sure
        × IsPut (K.contents out.old) (K.contents out.new) (K.faults out.old) (K.faults out.new) printed) }
    ensures write_fault { result.status ≡ 6 → (status : ℕ) × ((printed : List ℕ) × ((sure : List ℕ)
        × RanFrom V.disk
        report_of.Commands (arc_value inputs.now.model) inputs.now (F.told files.old) commands.now landscape result.vols
        (F.faults files.old) (F.faults files.new) (C.told clock.new) (C.given clock.old) (C.given clock.new) status printed sure
        × IsFront (K.contents out.old) (K.contents out.new) (K.faults out.old) (K.faults out.new) printed sure)) }
    ensures told { C.told clock.new → C.told clock.old }
    ensures counted { K.faults out.old ≤ K.faults out.new }
    ensures files { (name : List ℕ) → F.told files.new name ≡ F.told files.old name }
    ensures files_counted { F.faults files.old ≤ F.faults files.new }
{
    let stage = Stage {
        landscape,
        wires: Wires::new(alloc),
    };
    let Ran { stage, end } = run_script(crew, alloc, stage, inputs, commands, files, out, clock);
    let status = close(alloc, &inputs.model, end, out);
    let Stage { landscape, .. } = stage;
    let _ = landscape.world();
    Ended {
        status,
        vols: landscape.into_volumes(),
    }
}

/// Takes the text of commands that is not printed.
#[derive(Clone, Copy)]
struct Unprinted;

impl Sink for Unprinted {
    ghost use Rattle.std.specs.Prelude.{◌≡◌, ◌≤◌, ℕ, List, None, IsErr, IsOk, OnErr, OnOk};
    ghost use Rattle.std.specs.Io.KnownBytes.{Appends};
    ghost use Rattle.ale_io.specs.Written.{AppendsFront};
    ghost use Rattle.ale_io.specs.FaultCount.{IsCounted};

    ghost contents = { λ sink. None };

    ghost faults = { λ sink. 0 };

    fn put(&mut self, bytes: &[u8]) -> Result<(), SinkFailed>
        ensures ok { OnOk result (Appends None None bytes.now) }
        ensures err { OnErr result (AppendsFront None None bytes.now) }
        ensures faults { IsCounted (IsErr result) (IsOk result) 0 0 }
    {
        let _ = bytes;
        Ok(())
    }
}

/// Carries out commands whose text is not put, and puts how much the logs hold then, or another last line.
fn load_opened<
    R: Threads + Wait + Sync,
    G: Gate + Sync,
    F: Files,
    V: Volumes + Send,
    K: Sink,
    C: Clock,
>(
    crew: &Crew<'_, R, G>,
    alloc: Global,
    landscape: Landscape<V>,
    inputs: &Inputs,
    commands: &[Command],
    files: &mut F,
    out: &mut K,
    clock: &mut C,
) -> Ended<V>
    ensures ended { result.status ≢ 6 → (printed : List ℕ) × ((sure : List ℕ)
        × RanFrom V.disk
        report_of.Counts (arc_value inputs.now.model) inputs.now (F.told files.old) commands.now landscape result.vols
        (F.faults files.old) (F.faults files.new) (C.told clock.new) (C.given clock.old) (C.given clock.new) result.status printed sure
        × IsPut (K.contents out.old) (K.contents out.new) (K.faults out.old) (K.faults out.new) printed) }
    ensures write_fault { result.status ≡ 6 → (status : ℕ) × ((printed : List ℕ) × ((sure : List ℕ)
        × RanFrom V.disk
        report_of.Counts (arc_value inputs.now.model) inputs.now (F.told files.old) commands.now landscape result.vols
        (F.faults files.old) (F.faults files.new) (C.told clock.new) (C.given clock.old) (C.given clock.new) status printed sure
        × IsFront (K.contents out.old) (K.contents out.new) (K.faults out.old) (K.faults out.new) printed sure)) }
    ensures told { C.told clock.new → C.told clock.old }
    ensures counted { K.faults out.old ≤ K.faults out.new }
    ensures files { (name : List ℕ) → F.told files.new name ≡ F.told files.old name }
    ensures files_counted { F.faults files.old ≤ F.faults files.new }
{
    let stage = Stage {
        landscape,
        wires: Wires::new(alloc),
    };
    let mut unprinted = Unprinted;
    let Ran { stage, end } = run_script(
        crew,
        alloc,
        stage,
        inputs,
        commands,
        files,
        &mut unprinted,
        clock,
    );
    let counts = stage.landscape.held();
    let status = close_load(alloc, &inputs.model, counts, end, out);
    let Stage { landscape, .. } = stage;
    let _ = landscape.world();
    Ended {
        status,
        vols: landscape.into_volumes(),
    }
}

/// Puts the last line of a run, and gives the status.
fn close<K: Sink>(alloc: Global, model: &Model, end: RunEnd, out: &mut K) -> u8
    ensures closed { IsClosed model.now end result (K.contents out.old) (K.contents out.new) (K.faults out.old) (K.faults out.new) }
    ensures counted { K.faults out.old ≤ K.faults out.new }
{
    match end {
        RunEnd::Whole => 0,
        RunEnd::WriteFailed => WRITE_FAULT,
        RunEnd::OutOfMemory => put(out, 9, OUT_OF_MEMORY),
        RunEnd::DownByFault(system) => put_fault(alloc, model, system, out),
        RunEnd::DownFull(system, size) => put_full(alloc, model, system, size, out),
        RunEnd::Changed(system, number) => put_changed(alloc, model, system, number, out),
    }
}

/// Puts how much the logs hold where a load did all that it asks for, or else its last line, and gives the status.
fn close_load<K: Sink>(alloc: Global, model: &Model, counts: Counts, end: RunEnd, out: &mut K) -> u8
    requires taken { end ≢ run_end.WriteFailed }
    ensures ended { result ≢ 6 → (line : List ℕ) × EndsCounting counts model.now end result line
        × IsPut (K.contents out.old) (K.contents out.new) (K.faults out.old) (K.faults out.new) line }
    ensures write_fault { result ≡ 6 → (status : ℕ) × ((line : List ℕ) × EndsCounting counts model.now end status line
        × IsPart (K.contents out.old) (K.contents out.new) (K.faults out.old) (K.faults out.new) line) }
    ensures counted { K.faults out.old ≤ K.faults out.new }
{
    match end {
        RunEnd::Whole => put_counts(alloc, counts, out),
        RunEnd::DownByFault(_)
        | RunEnd::DownFull(..)
        | RunEnd::Changed(..)
        | RunEnd::WriteFailed
        | RunEnd::OutOfMemory => close(alloc, model, end, out),
    }
}

/// Puts the line of a load with these counts, and gives the status.
fn put_counts<K: Sink>(alloc: Global, counts: Counts, out: &mut K) -> u8
    ensures ended { result ≢ 6 → (line : List ℕ) × IsCountLine counts result line
        × IsPut (K.contents out.old) (K.contents out.new) (K.faults out.old) (K.faults out.new) line }
    ensures write_fault { result ≡ 6 → (status : ℕ) × ((line : List ℕ) × IsCountLine counts status line
        × IsPart (K.contents out.old) (K.contents out.new) (K.faults out.old) (K.faults out.new) line) }
    ensures counted { K.faults out.old ≤ K.faults out.new }
{
    match load_line(alloc, counts) {
        Ok(text) => put(out, 0, text.as_slice()),
        Err(_) => put(out, 9, OUT_OF_MEMORY),
    }
}

/// Puts that a system is down by a fault of its volume, and gives the status.
fn put_fault<K: Sink>(alloc: Global, model: &Model, system: SystemNo, out: &mut K) -> u8
    ensures closed { IsClosed model.now (run_end.DownByFault system) result (K.contents out.old) (K.contents out.new) (K.faults out.old) (K.faults out.new) }
    ensures counted { K.faults out.old ≤ K.faults out.new }
{
    match fault_text(alloc, model, system) {
        Ok(text) => put(out, 11, text.as_slice()),
        Err(_) => put(out, 9, OUT_OF_MEMORY),
    }
}

/// Puts that a system is down because a record did not fit, and gives the status.
fn put_full<K: Sink>(alloc: Global, model: &Model, system: SystemNo, size: u64, out: &mut K) -> u8
    ensures closed { IsClosed model.now (run_end.DownFull system size) result (K.contents out.old) (K.contents out.new) (K.faults out.old) (K.faults out.new) }
    ensures counted { K.faults out.old ≤ K.faults out.new }
{
    match full_text(alloc, model, system, size) {
        Ok(text) => put(out, 12, text.as_slice()),
        Err(_) => put(out, 9, OUT_OF_MEMORY),
    }
}

/// Puts that a system was to be opened whose journal is another than was kept, and gives the status.
fn put_changed<K: Sink>(
    alloc: Global,
    model: &Model,
    system: SystemNo,
    number: u64,
    out: &mut K,
) -> u8
    ensures closed { IsClosed model.now (run_end.Changed system number) result (K.contents out.old) (K.contents out.new) (K.faults out.old) (K.faults out.new) }
    ensures counted { K.faults out.old ≤ K.faults out.new }
{
    match journals_text(alloc, model, system, number, Cause::Changed) {
        Ok(text) => put(out, 7, text.as_slice()),
        Err(_) => put(out, 9, OUT_OF_MEMORY),
    }
}

/// The last line where a system is down by a fault of its volume.
fn fault_text(alloc: Global, model: &Model, system: SystemNo) -> Result<Vec<u8>, OutOfMemory>
    ensures { IfOk result (λ text. text.items ≡ fault_line (last.DownByFault (system_name model.now system))) }
{
    let system = Items::from_slice(alloc, system_name(model, system))?;
    line_of(alloc, FaultLine::DownByFault { system })
}

/// The last line where a system is down because a record did not fit.
fn full_text(
    alloc: Global,
    model: &Model,
    system: SystemNo,
    length: u64,
) -> Result<Vec<u8>, OutOfMemory>
    ensures { IfOk result (λ text. text.items ≡ fault_line (last.DownFull (system_name model.now system) length)) }
{
    let system = Items::from_slice(alloc, system_name(model, system))?;
    line_of(alloc, FaultLine::DownFull { system, length })
}

/// A last line.
pub(crate) fn line_of(alloc: Global, line: FaultLine) -> Result<Vec<u8>, OutOfMemory>
    ensures { IfOk result (λ text. text.items ≡ fault_line line) }
{
    let mut text = Vec::new(alloc);
    fault_line(alloc, &line, &mut text)?;
    Ok(text)
}

/// The name of a system; no bytes where there is none of this number.
pub(crate) fn system_name(model: &Model, system: SystemNo) -> &[u8]
    ensures { result.now ≡ system_name model.now system }
{
    dist_model::system_name(model.as_lists(), system)
}

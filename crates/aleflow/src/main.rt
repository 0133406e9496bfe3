//! The program: the top call over the current folder, standard output and standard error.
//!
//! Contract: what is proved of the top call holds of the program as far as the adapters of `ale_os` tell. They tell no
//! contents and no moments: nothing is claimed of a real disk, of standard output or of the system's clock.
#![tactic(auto)]

use ale_host::{aleflow, out_of_memory};
use ale_io::OpenGate;
use ale_os::{DirFiles, FileVolumes, StdSink, WallClock};
use byte_journal::Journal;
use std::alloc::Global;
use std::env::Env;
use std::fs::File;
use std::io::{Eprint, ErrorKind, IsTerminal, Write};
use std::process::ExitCode;
use std::rt::Files;
use std::{env, io};

/// The words behind the program's name.
fn words(rt: &(impl Env + AllocGlobal), alloc: Global) -> io::Result<Vec<String>> {
    Ok(env::args(rt)?.skip(1).collect(alloc)?)
}

/// A stream of the system, as a sink.
fn sink_on<W: Write + IsTerminal>(stream: W) -> StdSink<W> {
    if stream.is_terminal() {
        StdSink::on_terminal(stream)
    } else {
        StdSink::new(stream)
    }
}

/// Tells on standard error what the system said, where a run ended with this status since it failed.
fn tell<R: Files<File = File>, W: Write>(
    rt: &impl Eprint,
    status: u8,
    files: &DirFiles<'_, R>,
    out: &StdSink<W>,
    vols: &FileVolumes<'_, R>,
) -> io::Result<()> {
    match status {
        UNREAD => match files.failure() {
            Some(failure) => eprintln!(rt; "aleflow: {failure}"),
            None => Ok(()),
        },
        WRITE_FAULT => tell_sink(rt, out),
        VOLUMES_FAULT | DOWN_BY_FAULT => match vols.failure() {
            Some(failure) => eprintln!(rt; "aleflow: {failure}"),
            None => Ok(()),
        },
        _ => Ok(()),
    }
}

/// Tells on standard error why a write to standard output failed, where one did.
fn tell_sink<W: Write>(rt: &impl Eprint, out: &StdSink<W>) -> io::Result<()> {
    match out.failure() {
        Some(error) => eprintln!(rt; "aleflow: standard output: {error}"),
        None => Ok(()),
    }
}

/// The status where a file was not read.
const UNREAD: u8 = 5;

/// The status where standard output did not take all of the text.
const WRITE_FAULT: u8 = 6;

/// The status where a volume failed as the systems were opened.
const VOLUMES_FAULT: u8 = 8;

/// The status where a system is down by a fault of its volume.
const DOWN_BY_FAULT: u8 = 11;

fn main(rt: HostRuntime) -> ExitCode {
    let alloc = rt.alloc();
    let mut out = sink_on(rt.stdout());
    let words = match words(&rt, alloc) {
        Ok(words) => words,
        Err(error) if error.kind() == ErrorKind::OutOfMemory => {
            let status = out_of_memory(&mut out);
            let _ = tell_sink(&rt, &out);
            return ExitCode::from(status);
        }
        // A word that is no UTF-8 is of no form, as no words are.
        Err(_) => Vec::new(alloc),
    };
    let mut files = DirFiles::new(&rt, alloc);
    let mut clock = WallClock::new(&rt);
    let vols = FileVolumes::new(&rt, alloc, [Journal::OPEN_GATE, Journal::CLOSED_GATE]);
    let ended = aleflow(
        &rt,
        alloc,
        words.as_slice(),
        &mut files,
        &mut out,
        vols,
        &OpenGate,
        &mut clock,
    );
    // Standard error may be closed or full, which changes nothing.
    let _ = tell(&rt, ended.status, &files, &out, &ended.vols);
    ExitCode::from(ended.status)
}

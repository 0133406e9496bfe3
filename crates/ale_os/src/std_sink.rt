//! Standard output. It tells nothing of what it holds.

ghost use Rattle.std.specs.Prelude.{◌≡◌, None, OnOk, IsFalse};
ghost use Rattle.std.specs.Io.KnownBytes.{Appends};

use crate::shown::write_shown;
use ale_io::{Sink, SinkFailed};
use std::io;
use std::io::Write;

/// Standard output, or another writer that keeps nothing back until it is flushed. It tells nothing of what it holds.
#[derive(Drop)]
pub struct StdSink<W> {
    out: W,
    faults: u64,
    is_terminal: bool,
    failure: Option<io::Error>,
}

impl<W: Write> StdSink<W> {
    /// No write has failed yet. The writer gets the bytes that are put.
    pub fn new(out: W) -> StdSink<W>
        ensures faults { ⟦<StdSink<W> as Sink>⟧.faults result ≡ 0 }
        ensures bytes { IsFalse result.is_terminal }
    {
        StdSink::over(out, false)
    }

    /// No write has failed yet. The writer is a terminal: of what is put it gets text in UTF-8 without control characters and the
    /// ends of lines as they are, and each other byte as `\x` and its two hexadecimal digits.
    pub fn on_terminal(out: W) -> StdSink<W>
        ensures { ⟦<StdSink<W> as Sink>⟧.faults result ≡ 0 }
    {
        StdSink::over(out, true)
    }

    /// A sink of which no write has failed yet.
    fn over(out: W, is_terminal: bool) -> StdSink<W>
        ensures { result ≡ record { out = out; faults = 0; is_terminal = is_terminal; failure = None } }
    {
        StdSink {
            out,
            faults: 0,
            is_terminal,
            failure: None,
        }
    }

    /// What it writes to.
    pub fn writer(&self) -> &W
        ensures { result.now ≡ self.now.out }
    {
        &self.out
    }

    /// Why the last write failed that did. It is for people: no clause says that it is so.
    pub fn failure(&self) -> Option<io::Error> {
        self.failure
    }

    /// Writes bytes as the writer wants them. It counts no fault.
    fn write(&mut self, bytes: &[u8]) -> io::Result<()>
        ensures faults { self.new.faults ≡ self.old.faults }
        ensures written { IsFalse self.old.is_terminal → OnOk result
            (Appends (W.contents self.old.out) (W.contents self.new.out) bytes.now) }
    {
        if self.is_terminal {
            write_shown(&mut self.out, bytes)
        } else {
            self.out.write_all(bytes)
        }
    }
}

impl<W: Write> Sink for StdSink<W> {
    ghost use Rattle.std.specs.Prelude.{None, IsOk, IsErr, IsFalse, OnOk, OnErr};
    ghost use Rattle.std.specs.Io.KnownBytes.{Appends};
    ghost use Rattle.ale_io.specs.Written.{AppendsFront};
    ghost use Rattle.ale_io.specs.FaultCount.{IsCounted};

    ghost contents = { λ _. None };

    ghost faults = { λ sink. sink.faults };

    fn put(&mut self, bytes: &[u8]) -> Result<(), SinkFailed>
        ensures ok { OnOk result (Appends None None bytes.now) }
        ensures err { OnErr result (AppendsFront None None bytes.now) }
        ensures faults { IsCounted (IsErr result) (IsOk result) self.old.faults self.new.faults }

        // What the writer holds grew by the bytes, where it tells and is no terminal.
        ensures written { IsFalse self.old.is_terminal → OnOk result
            (Appends (W.contents self.old.out) (W.contents self.new.out) bytes.now) }
    {
        match self.write(bytes) {
            Ok(()) => Ok(()),
            Err(error) => {
                self.faults = self.faults.saturating_add(1);
                self.failure = Some(error);
                Err(SinkFailed)
            }
        }
    }
}

//! The reader of a document file, which is fed in pieces.

use crate::lines_read::LinesRead;
use crate::{FileFault, RawDoc};
use ale_base::{Items, OutOfMemory, split_line, without_return};
use std::alloc::Global;
use std::mem;

/// A reader of a document file. It reads each line as it ends, and keeps the documents, the unfinished line, and the
/// fault of the first bad line.
#[derive(Drop)]
pub struct Reader {
    alloc: Global,
    read: LinesRead,
    unfinished: Vec<u8>,
    fed: u64,
}

impl Reader {
    ghost use Rattle.std.specs.Prelude.{◌≡◌, ◌≢◌, ℕ, ◌+◌, ◌<◌, ◌≤◌, List, [], ◌∷◌, ◌++◌, length, Result, Some, Err, OnOk, OnErr, IfOk};
    ghost use Rattle.std.specs.List.{AllByRecursion};
    ghost use Rattle.idoc_file.specs.declared.file_fault.FileFault.{FileFault};
    ghost use Rattle.idoc_file.specs.declared.reader.TheConstants.Reader.{MOST_BYTES};
    ghost use Rattle.ale_base.specs.Lines.{lines_of, IsNoEnd};
    ghost use Rattle.idoc_file.specs.DocumentFile.{AreDocuments, IsFirstBad, IsAnswer};
    ghost use Rattle.idoc_file.specs.declared.raw_doc.RawDoc.{RawDoc};
    ghost use Rattle.idoc_file.specs.Reading.{IsReading, Stands, IsGone, fed_of};

    /// The greatest length of a document file, in bytes.
    pub const MOST_BYTES: u64 = 67_108_864;

    /// No bytes were fed. It takes no memory.
    pub fn new(alloc: Global) -> Reader
        ensures stands { Stands result [] }
        ensures fed { fed_of result ≡ 0 }
    {
        Reader {
            alloc,
            read: LinesRead::new(alloc),
            unfinished: Vec::new(alloc),
            fed: 0,
        }
    }

    /// The number of bytes that were fed.
    pub fn fed(&self) -> u64
        ensures fed { result ≡ fed_of self.now }
        ensures length { (bytes : List ℕ) → Stands self.now bytes → result ≡ length bytes }
    {
        self.fed
    }

    /// Reads the next bytes of the file, of which there are [`Reader::MOST_BYTES`] at most. After an `Err` the reader is only good
    /// to be ended, and `end` answers want of memory.
    pub fn feed(&mut self, piece: &[u8]) -> Result<(), OutOfMemory>
        requires fits { fed_of self.old + length piece.now ≤ MOST_BYTES }
        ensures stands { OnOk result ((bytes : List ℕ) → Stands self.old bytes → Stands self.new (bytes ++ piece.now)) }
        ensures fed { fed_of self.new ≡ fed_of self.old + length piece.now }
        ensures gone { OnErr result (IsGone self.new) }
        ensures stays_gone { IsGone self.old → IsGone self.new }
    {
        self.fed += piece.len() as u64;
        self.read_lines(piece)
    }

    /// Reads the lines that end in these bytes, and keeps what is left.
    fn read_lines(&mut self, piece: &[u8]) -> Result<(), OutOfMemory>
        ensures reading { OnOk result ((bytes : List ℕ) → length bytes + length piece.now ≤ MOST_BYTES
            → IsReading self.old.read self.old.unfinished.items bytes
            → IsReading self.new.read self.new.unfinished.items (bytes ++ piece.now)) }
        ensures fed { self.new.fed ≡ self.old.fed }
        ensures gone { OnErr result (IsGone self.new) }
        ensures stays_gone { IsGone self.old → IsGone self.new }
    {
        let mut rest = piece;
        while let Some((end, behind)) = split_line(rest) {
            self.end_line(end)?;
            rest = behind;
        }
        self.keep(rest)
    }

    /// Reads the unfinished line, which ends with these bytes and an LF.
    fn end_line(&mut self, end: &[u8]) -> Result<(), OutOfMemory>
        ensures reading { OnOk result ((bytes : List ℕ) → length bytes < 4294967295 → AllByRecursion IsNoEnd end.now
            → IsReading self.old.read self.old.unfinished.items bytes
            → IsReading self.new.read self.new.unfinished.items (bytes ++ (end.now ++ 10 ∷ []))) }
        ensures fed { self.new.fed ≡ self.old.fed }
        ensures gone { OnErr result (IsGone self.new) }
        ensures stays_gone { IsGone self.old → IsGone self.new }
    {
        // A line that lies in one piece is not copied.
        if self.unfinished.as_slice().is_empty() {
            return self.read.read_line(self.alloc, without_return(end));
        }
        self.keep(end)?;
        let line = mem::replace(&mut self.unfinished, Vec::new(self.alloc));
        self.read
            .read_line(self.alloc, without_return(line.as_slice()))
    }

    /// Keeps these bytes of the unfinished line.
    fn keep(&mut self, bytes: &[u8]) -> Result<(), OutOfMemory>
        ensures kept { OnOk result ((self.new.read ≡ self.old.read) × (self.new.unfinished.items ≡ self.old.unfinished.items ++ bytes.now)) }
        ensures fed { self.new.fed ≡ self.old.fed }
        ensures gone { OnErr result (IsGone self.new) }
        ensures stays_gone { IsGone self.old → IsGone self.new }
    {
        match self.unfinished.extend_from_slice(bytes) {
            Ok(()) => Ok(()),
            Err(_) => self.read.refuse(FileFault::OutOfMemory),
        }
    }

    /// The documents of the bytes that were fed, or the fault of their first bad line.
    pub fn end(self) -> Result<Items<RawDoc>, FileFault>
        ensures documents { IfOk result (λ documents. (bytes : List ℕ) → Stands self bytes → AreDocuments (lines_of bytes) documents) }
        ensures fault { (fault : FileFault) → result ≡ Err fault → fault ≢ FileFault.OutOfMemory
            → (bytes : List ℕ) → Stands self bytes → IsFirstBad (lines_of bytes) fault }
        ensures gone { IsGone self → result ≡ Err FileFault.OutOfMemory }
        // The lines of a file have one answer.
        ensures one_answer { (lines : List (List ℕ)) (one other : Result (List RawDoc) FileFault)
            → IsAnswer lines one → IsAnswer lines other → one ≡ other }
    {
        let Reader {
            alloc,
            mut read,
            unfinished,
            fed: _,
        } = self;
        read.read_last(alloc, unfinished.as_slice())?;
        read.into_documents()
    }
}

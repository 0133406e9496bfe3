//! The lines that were read, or the first bad one among them.

use crate::documents::Documents;
use crate::{FileFault, RawDoc};
use ale_base::{Items, OutOfMemory};
use std::alloc::Global;

/// The lines of a file that have ended: their documents and their count, or the fault of the first bad line.
#[derive(Drop)]
pub(crate) struct LinesRead {
    documents: Documents,
    count: u32,
    fault: Option<FileFault>,
}

impl LinesRead {
    ghost use Rattle.std.specs.Prelude.{◌≡◌, ◌≢◌, ℕ, ◌<◌, ◌≤◌, List, [], ◌∷◌, ◌++◌, length, Some, None, Ok, Err, OnOk, OnErr, IfOk};
    ghost use Rattle.idoc_file.specs.declared.file_fault.FileFault.{FileFault};
    ghost use Rattle.idoc_file.specs.declared.reader.TheConstants.Reader.{MOST_BYTES};
    ghost use Rattle.idoc_file.specs.DocumentFile.{AreDocuments, IsFirstBad};
    ghost use Rattle.idoc_file.specs.Reading.{AreRead, IsReading};
    ghost use Rattle.ale_base.specs.Lines.{lines_of};

    /// No line was read.
    pub(crate) fn new(alloc: Global) -> LinesRead
        ensures none { AreRead result [] }
    {
        LinesRead {
            documents: Documents::new(alloc),
            count: 0,
            fault: None,
        }
    }

    /// Reads the next line. Behind a bad line nothing is read. After an `Err` want of memory is the fault.
    pub(crate) fn read_line(&mut self, alloc: Global, line: &[u8]) -> Result<(), OutOfMemory>
        ensures read { OnOk result ((lines : List (List ℕ)) → length lines < 4294967295 → AreRead self.old lines
            → AreRead self.new (lines ++ line.now ∷ [])) }
        ensures gone { OnErr result (self.new.fault ≡ Some FileFault.OutOfMemory) }
        ensures stays { (fault : FileFault) → self.old.fault ≡ Some fault → self.new.fault ≡ Some fault }
    {
        if self.fault.is_some() {
            return Ok(());
        }
        self.count = self.count.saturating_add(1);
        match self.documents.read_line(alloc, self.count, line) {
            Ok(()) => Ok(()),
            Err(fault) => self.refuse(fault),
        }
    }

    /// Reads the last line, which lacks its end, where there is one. A CR at its end is a byte of it.
    pub(crate) fn read_last(&mut self, alloc: Global, unfinished: &[u8]) -> Result<(), OutOfMemory>
        ensures read { OnOk result ((bytes : List ℕ) → length bytes ≤ MOST_BYTES → IsReading self.old unfinished.now bytes
            → AreRead self.new (lines_of bytes)) }
        ensures gone { OnErr result (self.new.fault ≡ Some FileFault.OutOfMemory) }
        ensures stays { (fault : FileFault) → self.old.fault ≡ Some fault → self.new.fault ≡ Some fault }
    {
        if unfinished.is_empty() {
            return Ok(());
        }
        self.read_line(alloc, unfinished)
    }

    /// From here on this is the fault. An `Err` says that it is want of memory.
    pub(crate) fn refuse(&mut self, fault: FileFault) -> Result<(), OutOfMemory>
        ensures kept { self.new ≡ record self.old { fault = Some fault } }
        ensures bad { OnOk result (fault ≢ FileFault.OutOfMemory) }
        ensures gone { OnErr result (fault ≡ FileFault.OutOfMemory) }
    {
        self.fault = Some(fault);
        match fault {
            FileFault::OutOfMemory => Err(OutOfMemory),
            _ => Ok(()),
        }
    }

    /// The documents of the lines, or the fault.
    pub(crate) fn into_documents(self) -> Result<Items<RawDoc>, FileFault>
        ensures documents { IfOk result (λ documents. (lines : List (List ℕ)) → AreRead self lines → AreDocuments lines documents) }
        ensures fault { (fault : FileFault) → result ≡ Err fault → (lines : List (List ℕ)) → AreRead self lines → IsFirstBad lines fault }
        ensures kept { (fault : FileFault) → self.fault ≡ Some fault → result ≡ Err fault }
    {
        let LinesRead {
            documents,
            count: _,
            fault,
        } = self;
        match fault {
            Some(fault) => Err(fault),
            None => Ok(documents.into_items()),
        }
    }
}

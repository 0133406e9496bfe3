//! The documents of a file, grown line by line.

ghost use Rattle.std.specs.Prelude.{◌≡◌, ◌<◌, length, OnOk, OnErr};
ghost use Rattle.idoc_file.specs.declared.documents.TheConstants.{MAX_RECORDS};
ghost use Rattle.idoc_file.specs.DocumentFile.{AddsToLast, last_count, is_blank, is_control_kind};

use crate::{FileFault, Quantity, RawDoc};
use ale_base::{Items, OutOfMemory, trimmed};
use idoc_record::{Control, Data, RecordFault, read_control, read_data};
use std::alloc::Global;
use std::marker::Model;

/// The greatest length of a line, in bytes.
pub(crate) const MAX_LINE: usize = 4_096;

/// The first bytes of a line, which tell its kind.
const KIND_LEN: usize = 10;

/// The most documents of a file.
pub const MAX_DOCUMENTS: usize = 4_096;

/// The most data records of a document.
pub(crate) const MAX_SEGMENTS: usize = 10_000;

/// The most data records of a file.
pub(crate) const MAX_RECORDS: u32 = 1_000_000;

/// The documents of the lines that were read so far. Contracts see the documents.
#[derive(Drop)]
pub(crate) struct Documents {
    documents: Items<RawDoc>,
    records: u32,
}

impl Model for Documents {
    ghost use Rattle.std.specs.Prelude.{List, ◌≡◌, sum_by};
    ghost use Rattle.idoc_file.specs.declared.raw_doc.RawDoc.{RawDoc};
    ghost use Rattle.idoc_file.specs.DocumentFile.{segment_count};

    ghost Value = { List RawDoc };

    ghost view = { λ d. d.documents };

    ghost invariant = { λ d. d.records ≡ sum_by segment_count d.documents };
}

impl Documents {
    ghost use Rattle.std.specs.Prelude.{◌≡◌, ◌≢◌, ℕ, ◌+◌, ◌<◌, List, [], ◌∷◌, ◌++◌, Some, Err, length, sum_by, OnOk, IfErr};
    ghost use Rattle.idoc_record.specs.Control.{control_read};
    ghost use Rattle.idoc_record.specs.Data.{data_read};
    ghost use Rattle.idoc_file.specs.declared.file_fault.FileFault.{FileFault};
    ghost use Rattle.idoc_file.specs.DocumentFile.{AreDocuments, AddsToLast, BeginsDocument, GoesOn, segment_count, last_count, begun, control_fault, data_fault, first_fault};

    /// No line was read.
    pub(crate) fn new(alloc: Global) -> Documents
        ensures { result ≡ [] }
    {
        Documents {
            documents: Items::new(alloc),
            records: 0,
        }
    }

    /// Reads the line of this number, which is the one behind those that were read. After an `Err` nothing more is read.
    pub(crate) fn read_line(
        &mut self,
        alloc: Global,
        number: u32,
        line: &[u8],
    ) -> Result<(), FileFault>
        ensures read { OnOk result ((lines : List (List ℕ)) → number ≡ length lines + 1 → AreDocuments lines self.old
            → AreDocuments (lines ++ line.now ∷ []) self.new) }
        ensures fault { (fault : FileFault) → result ≡ Err fault → fault ≢ FileFault.OutOfMemory
            → first_fault number self.old line.now ≡ Some fault }
    {
        if line.len() > MAX_LINE {
            return Err(FileFault::LineTooLong(number));
        }
        if is_blank(line) {
            return Ok(());
        }
        if is_control(line) {
            return self.read_control_line(alloc, number, line);
        }
        if self.documents.is_empty() {
            return Err(FileFault::NoControl(number));
        }
        self.read_data_line(alloc, number, line)
    }

    /// Reads a line that begins a document.
    fn read_control_line(
        &mut self,
        alloc: Global,
        number: u32,
        line: &[u8],
    ) -> Result<(), FileFault>
        ensures begun { OnOk result (BeginsDocument number self.old self.new line.now) }
        ensures fault { (fault : FileFault) → result ≡ Err fault → fault ≢ FileFault.OutOfMemory
            → control_fault number self.old (control_read line.now) ≡ Some fault }
    {
        match read_control(line) {
            Ok(_) if self.documents.len() >= MAX_DOCUMENTS => {
                Err(FileFault::TooMany(number, Quantity::Documents))
            }
            Ok(control) => self.begin(alloc, number, control),
            Err(fault) => Err(FileFault::Record(number, fault)),
        }
    }

    /// Reads a line that goes on with the last document.
    fn read_data_line(&mut self, alloc: Global, number: u32, line: &[u8]) -> Result<(), FileFault>
        requires some { 0 < length self.old }
        ensures added { OnOk result (GoesOn self.old self.new line.now) }
        ensures fault { (fault : FileFault) → result ≡ Err fault → fault ≢ FileFault.OutOfMemory
            → data_fault number self.old (data_read line.now) ≡ Some fault }
    {
        match read_data(alloc, line) {
            Ok(_) if last_count(self.documents.as_slice()) >= MAX_SEGMENTS => {
                Err(FileFault::TooMany(number, Quantity::Segments))
            }
            Ok(_) if self.records >= MAX_RECORDS => {
                Err(FileFault::TooMany(number, Quantity::Records))
            }
            Ok(segment) => self.add(segment),
            Err(RecordFault::OutOfMemory) => Err(FileFault::OutOfMemory),
            Err(fault) => Err(FileFault::Record(number, fault)),
        }
    }

    /// Begins a document.
    fn begin(&mut self, alloc: Global, number: u32, control: Control) -> Result<(), FileFault>
        ensures begun { OnOk result (self.new ≡ self.old ++ begun number control ∷ []) }
        ensures err { IfErr result (λ fault. fault ≡ FileFault.OutOfMemory) }
    {
        let document = RawDoc {
            control,
            segments: Items::new(alloc),
            line: number,
        };
        match self.documents.push(document) {
            Ok(()) => Ok(()),
            Err(OutOfMemory) => Err(FileFault::OutOfMemory),
        }
    }

    /// Adds a segment to the last document.
    fn add(&mut self, segment: Data) -> Result<(), FileFault>
        requires some { 0 < length self.old }
        requires within { sum_by segment_count self.old < MAX_RECORDS }
        ensures added { OnOk result (AddsToLast self.old self.new segment) }
        ensures err { IfErr result (λ fault. fault ≡ FileFault.OutOfMemory) }
    {
        match add_to_last(&mut self.documents, segment) {
            Ok(()) => {
                self.records += 1;
                Ok(())
            }
            Err(OutOfMemory) => Err(FileFault::OutOfMemory),
        }
    }

    /// The documents that were read.
    pub(crate) fn into_items(self) -> Items<RawDoc>
        ensures { result ≡ self }
    {
        let Documents {
            documents,
            records: _,
        } = self;
        documents
    }
}

/// Adds a segment to the last document. After an `Err` the documents are as before.
fn add_to_last(documents: &mut Items<RawDoc>, segment: Data) -> Result<(), OutOfMemory>
    requires { 0 < length documents.old }
    ensures added { OnOk result (AddsToLast documents.old documents.new segment) }
    ensures err { OnErr result (documents.new ≡ documents.old) }
{
    let last = documents.len() - 1;
    documents.at_mut(last).segments.push(segment)
}

/// How many data records the last document has.
fn last_count(documents: &[RawDoc]) -> usize
    ensures { result ≡ last_count documents.now }
{
    match documents.last() {
        Some(last) => last.segments.len(),
        None => 0,
    }
}

/// Whether the line has blanks alone, or no bytes.
fn is_blank(line: &[u8]) -> bool
    ensures { result ≡ is_blank line.now }
{
    line.iter().all(|byte| *byte == b' ')
}

/// Whether it is a control line, by its first ten bytes.
fn is_control(line: &[u8]) -> bool
    ensures { result ≡ is_control_kind line.now }
{
    trimmed(&line[..KIND_LEN.min(line.len())]) == b"EDI_DC40".as_slice()
}

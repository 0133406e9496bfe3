//! How a call ends that is no run: its status and its text.

ghost use Rattle.std.specs.Prelude.{◌≡◌, ◌≢◌, ◌++◌, codes, IfOk};
ghost use Rattle.std.specs.Fmt.{decimal};
ghost use Rattle.ale_host.specs.Ending.{IsPrintable, status_of, text_of, shown_reason, shown_fault, shown_record_fault, shown_quantity, fault_status, fault_text, model_text, script_status, script_text};

use crate::pass_text::{pass_text, put};
use ale_base::{Items, OutOfMemory};
use idoc_file::{FileFault, Quantity, RawDoc};
use idoc_record::RecordFault;
use model_text::ModelFault;
use script_text::ScriptFault;
use std::alloc::Global;

/// Why a file was not read.
#[derive(Clone, Copy, PartialEq, Eq)]
pub enum NotRead {
    /// No file has the name.
    Missing,
    /// The file is over its limit.
    TooLong,
    /// The read failed.
    Failed,
}

/// How a call ends that is no run.
#[derive(Drop)]
pub enum Ending {
    /// The documents of the file were taken, each once and in order.
    Passed(Items<RawDoc>),
    /// The words have none of the three forms.
    Usage,
    /// The text of the model has this fault.
    ModelRefused(ModelFault),
    /// The document file has a bad line, and this is the fault of the first one.
    Refused(FileFault),
    /// The script has a line that is not read, and this is the fault of the first one.
    ScriptRefused(ScriptFault),
    /// The file of this name was not read.
    Unread(Items<u8>, NotRead),
    /// Memory ran out.
    OutOfMemory,
}

impl Ending {
    /// The exit status.
    pub fn status(&self) -> u8
        ensures status { result ≡ status_of self.now }
        ensures no_write_fault { result ≢ 6 }
    {
        match self {
            Ending::Passed(_) => 0,
            Ending::Usage => 1,
            Ending::ModelRefused(_) => 2,
            Ending::Refused(fault) => fault_status(*fault),
            Ending::ScriptRefused(fault) => script_status(*fault),
            Ending::Unread(..) => 5,
            Ending::OutOfMemory => 9,
        }
    }

    /// What the call prints.
    pub fn text(&self, alloc: Global) -> Result<Vec<u8>, OutOfMemory>
        requires { IsPrintable self.now }
        ensures { IfOk result (λ text. text.items ≡ text_of self.now) }
    {
        match self {
            Ending::Passed(documents) => pass_text(alloc, documents.as_slice()),
            Ending::Usage => text_from(alloc, USAGE),
            Ending::ModelRefused(fault) => model_text(alloc, fault),
            Ending::Refused(fault) => fault_text(alloc, *fault),
            Ending::ScriptRefused(fault) => script_text(alloc, *fault),
            Ending::Unread(name, why) => unread_text(alloc, name.as_slice(), *why),
            Ending::OutOfMemory => text_from(alloc, OUT_OF_MEMORY),
        }
    }
}

const USAGE: &[u8] = b"usage: aleflow run MODEL DOCS SCRIPT WORKERS, pass DOCS, load N WORKERS\n";

/// What is printed where memory ran out.
pub(crate) const OUT_OF_MEMORY: &[u8] = b"out of memory\n";

fn text_from(alloc: Global, bytes: &[u8]) -> Result<Vec<u8>, OutOfMemory>
    ensures { IfOk result (λ text. text.items ≡ bytes.now) }
{
    Ok(Vec::from_slice(alloc, bytes)?)
}

fn unread_text(alloc: Global, name: &[u8], why: NotRead) -> Result<Vec<u8>, OutOfMemory>
    ensures { IfOk result (λ text. text.items ≡ codes "cannot read " ++ (name.now ++ (codes ": " ++ shown_reason why))) }
{
    let mut text = text_from(alloc, b"cannot read ")?;
    put(&mut text, name)?;
    put(&mut text, b": ")?;
    put(&mut text, reason(why))?;
    Ok(text)
}

fn reason(why: NotRead) -> &'static [u8]
    ensures { result.now ≡ shown_reason why }
{
    match why {
        NotRead::Missing => b"missing\n",
        NotRead::TooLong => b"too long\n",
        NotRead::Failed => b"fault\n",
    }
}

/// The status where a document file has this fault.
fn fault_status(fault: FileFault) -> u8
    ensures { result ≡ fault_status fault }
{
    match fault {
        FileFault::TooMany(..) => 10,
        FileFault::OutOfMemory => 9,
        _ => 3,
    }
}

/// What is printed where a document file has this fault.
fn fault_text(alloc: Global, fault: FileFault) -> Result<Vec<u8>, OutOfMemory>
    ensures { IfOk result (λ text. text.items ≡ fault_text fault) }
{
    match fault {
        FileFault::LineTooLong(line) => refused_text(alloc, line, b"LineTooLong"),
        FileFault::NoControl(line) => refused_text(alloc, line, b"NoControl"),
        FileFault::Record(line, fault) => {
            let fault = record_fault(alloc, fault)?;
            refused_text(alloc, line, fault.as_slice())
        }
        FileFault::TooMany(_, quantity) => text_from(alloc, limit_text(quantity)),
        FileFault::OutOfMemory => text_from(alloc, OUT_OF_MEMORY),
    }
}

/// The status where a script has this fault.
fn script_status(fault: ScriptFault) -> u8
    ensures { result ≡ script_status fault }
{
    match fault {
        ScriptFault::Line(_) => 4,
        ScriptFault::TooMany(_) => 10,
        ScriptFault::OutOfMemory => 9,
    }
}

/// What is printed where a script has this fault.
fn script_text(alloc: Global, fault: ScriptFault) -> Result<Vec<u8>, OutOfMemory>
    ensures { IfOk result (λ text. text.items ≡ script_text fault) }
{
    match fault {
        ScriptFault::Line(line) => line_text(alloc, line),
        ScriptFault::TooMany(_) => text_from(alloc, b"limit: lines 100001\n"),
        ScriptFault::OutOfMemory => text_from(alloc, OUT_OF_MEMORY),
    }
}

fn line_text(alloc: Global, line: u32) -> Result<Vec<u8>, OutOfMemory>
    ensures { IfOk result (λ text. text.items ≡ codes "script refused: " ++ (decimal line ++ codes "\n")) }
{
    let mut text = text_from(alloc, b"script refused: ")?;
    put(&mut text, line.to_string(alloc)?.as_bytes())?;
    put(&mut text, b"\n")?;
    Ok(text)
}

/// What is printed where the text of a model has this fault.
fn model_text(alloc: Global, fault: &ModelFault) -> Result<Vec<u8>, OutOfMemory>
    ensures { IfOk result (λ text. text.items ≡ model_text fault.now) }
{
    let mut text = text_from(alloc, b"model refused: ")?;
    put(&mut text, fault.words(alloc)?.as_slice())?;
    put(&mut text, b"\n")?;
    Ok(text)
}

fn refused_text(alloc: Global, line: u32, fault: &[u8]) -> Result<Vec<u8>, OutOfMemory>
    ensures { IfOk result (λ text. text.items ≡ shown_fault line fault.now) }
{
    let mut text = text_from(alloc, b"documents refused: ")?;
    put(&mut text, line.to_string(alloc)?.as_bytes())?;
    put(&mut text, b" ")?;
    put(&mut text, fault)?;
    put(&mut text, b"\n")?;
    Ok(text)
}

/// Why a line is no record, as it is printed.
fn record_fault(alloc: Global, fault: RecordFault) -> Result<Vec<u8>, OutOfMemory>
    ensures { IfOk result (λ text. text.items ≡ shown_record_fault fault) }
{
    match fault {
        RecordFault::TooLong(length) => {
            let mut text = text_from(alloc, b"TooLong ")?;
            put(&mut text, length.to_string(alloc)?.as_bytes())?;
            Ok(text)
        }
        RecordFault::WrongTable => text_from(alloc, b"WrongTable"),
        RecordFault::BadNumber(field) => {
            let mut text = text_from(alloc, b"BadNumber ")?;
            put(&mut text, field.name().as_bytes())?;
            Ok(text)
        }
        // No line has this fault.
        RecordFault::OutOfMemory => text_from(alloc, b"OutOfMemory"),
    }
}

/// What is printed where a limit is passed, with the count that passed it.
fn limit_text(quantity: Quantity) -> &'static [u8]
    ensures { result.now ≡ shown_quantity quantity }
{
    match quantity {
        Quantity::Documents => b"limit: documents 4097\n",
        Quantity::Records => b"limit: records 1000001\n",
        Quantity::Segments => b"limit: segments 10001\n",
    }
}

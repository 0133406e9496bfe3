//! What `run` reads: a model, documents and a script, each from a file of its own.

ghost use Rattle.std.specs.Prelude.{◌≡◌, ◌≢◌, OnOk, IfOk, IfErr};
ghost use Rattle.std.specs.Arc.{arc_value};
ghost use Rattle.std.specs.Result.{result_err};
ghost use Rattle.ale_base.specs.Faults.{Rose};
ghost use Rattle.idoc_file.specs.declared.file_fault.FileFault.{FileFault};
ghost use Rattle.ale_io.specs.Told.{IsFileWithin};
ghost use Rattle.ale_host.specs.declared.ending.Ending.{Ending};
ghost use Rattle.ale_host.specs.Reads.{ReadsOnly};
ghost use Rattle.ale_host.specs.Prepared.{SaysMasters, SaysModel};
ghost use Rattle.ale_host.specs.Inputs.{IsNoModelSo, IsUnreadBecause, IsUnreadEnd, IsUnreadSo, SaysDocuments, SaysScript, StopsAtDocuments, StopsAtModel, StopsAtScript};

use crate::document_file::read_document_file;
use crate::ending::{Ending, NotRead};
use crate::prepared::masters_of;
use ale_base::{Items, OutOfMemory};
use ale_io::{FileEnd, Files};
use dist_model::Model;
use idoc_file::{FileFault, RawDoc};
use model_files::{ModelFile, ModelFileEnd};
use script_text::{Command, ScriptFault};
use std::alloc::Global;
use std::sync::Arc;
use unit_core::RawUnitDoc;

/// A model, and the text that says it.
#[derive(Drop)]
pub(crate) struct SaidModel {
    /// The text.
    pub(crate) text: Items<u8>,
    /// The model, by which systems work.
    pub(crate) model: Arc<Model>,
    /// The model once more, for the names of systems.
    pub(crate) names: Arc<Model>,
}

/// A model and its text, with a second owner of the model.
pub(crate) fn with_names(text: Items<u8>, model: Arc<Model>) -> Result<SaidModel, OutOfMemory>
    ensures text { IfOk result (λ said. said.text ≡ text) }
    ensures model { IfOk result (λ said. arc_value said.model ≡ arc_value model) }
    ensures names { IfOk result (λ said. arc_value said.names ≡ arc_value model) }
{
    let names = Arc::try_clone(&model)?;
    Ok(SaidModel { text, model, names })
}

/// The model that the file of this name says, with its text, or the ending of the run at this file.
pub(crate) fn read_model<F: Files>(
    alloc: Global,
    name: &str,
    files: &mut F,
) -> Result<SaidModel, Ending>
    ensures says { IfOk result (SaysModel (F.told files.old name.now)) }
    ensures stops { IfErr result (StopsAtModel name.now (F.told files.old name.now) (Rose (F.faults files.old) (F.faults files.new))) }
    ensures only { ReadsOnly (F.told files.old) (F.told files.new) (F.faults files.old) (F.faults files.new) (result_err result) }
{
    match model_files::read(alloc, name, files) {
        Err(end) => Err(no_model(alloc, name, end)),
        Ok(ModelFile { text, model }) => match with_names(text, model) {
            Ok(said) => Ok(said),
            Err(OutOfMemory) => Err(Ending::OutOfMemory),
        },
    }
}

/// The masters that the file of this name says, or the ending of the run at this file.
pub(crate) fn read_masters<F: Files>(
    alloc: Global,
    name: &str,
    files: &mut F,
) -> Result<Items<RawUnitDoc>, Ending>
    ensures says { IfOk result (SaysMasters (F.told files.old name.now)) }
    ensures stops { IfErr result (StopsAtDocuments name.now (F.told files.old name.now) (Rose (F.faults files.old) (F.faults files.new))) }
    ensures only { ReadsOnly (F.told files.old) (F.told files.new) (F.faults files.old) (F.faults files.new) (result_err result) }
{
    match read_documents(alloc, name, files) {
        Ok(documents) => match masters_of(alloc, documents) {
            Ok(masters) => Ok(masters),
            Err(OutOfMemory) => Err(Ending::OutOfMemory),
        },
        Err(ending) => Err(ending),
    }
}

/// The documents that the file of this name says, or the ending of the run at this file.
pub(crate) fn read_documents<F: Files>(
    alloc: Global,
    name: &str,
    files: &mut F,
) -> Result<Items<RawDoc>, Ending>
    ensures says { IfOk result (SaysDocuments (F.told files.old name.now)) }
    ensures stops { IfErr result (StopsAtDocuments name.now (F.told files.old name.now) (Rose (F.faults files.old) (F.faults files.new))) }
    ensures only { ReadsOnly (F.told files.old) (F.told files.new) (F.faults files.old) (F.faults files.new) (result_err result) }
{
    match read_document_file(alloc, name, files) {
        Err(end) => Err(unread(alloc, name, end)),
        Ok(reader) => match reader.end() {
            Ok(documents) => Ok(documents),
            Err(fault) => match refused(fault) {
                Ok(ending) => Err(ending),
                Err(OutOfMemory) => Err(Ending::OutOfMemory),
            },
        },
    }
}

/// The ending where a file has this fault.
pub(crate) fn refused(fault: FileFault) -> Result<Ending, OutOfMemory>
    ensures ending { IfOk result (λ ending. ending ≡ Ending.Refused fault) }
    ensures bad { OnOk result (fault ≢ FileFault.OutOfMemory) }
{
    match fault {
        FileFault::OutOfMemory => Err(OutOfMemory),
        _ => Ok(Ending::Refused(fault)),
    }
}

/// The commands that the file of this name says, or the ending of the run at this file.
pub(crate) fn read_script<F: Files>(
    alloc: Global,
    name: &str,
    files: &mut F,
) -> Result<Items<Command>, Ending>
    ensures says { IfOk result (SaysScript (F.told files.old name.now)) }
    ensures stops { IfErr result (StopsAtScript name.now (F.told files.old name.now) (Rose (F.faults files.old) (F.faults files.new))) }
    ensures only { ReadsOnly (F.told files.old) (F.told files.new) (F.faults files.old) (F.faults files.new) (result_err result) }
{
    let bytes = read_whole(alloc, name, script_text::MAX_BYTES, files)?;
    match script_text::read(alloc, bytes.as_slice()) {
        Ok(commands) => Ok(commands),
        Err(ScriptFault::OutOfMemory) => Err(Ending::OutOfMemory),
        Err(fault) => Err(Ending::ScriptRefused(fault)),
    }
}

/// The bytes of the file of this name, which are not more than the limit, or the ending where it is not read.
fn read_whole<F: Files>(
    alloc: Global,
    name: &str,
    most: usize,
    files: &mut F,
) -> Result<Vec<u8>, Ending>
    ensures says { IfOk result (λ bytes. IsFileWithin most (F.told files.old name.now) bytes.items) }
    ensures stops { IfErr result (IsUnreadEnd most name.now (F.told files.old name.now) (Rose (F.faults files.old) (F.faults files.new))) }
    ensures only { ReadsOnly (F.told files.old) (F.told files.new) (F.faults files.old) (F.faults files.new) (result_err result) }
{
    let mut bytes = Vec::new(alloc);
    match files.read_file(name, most, &mut bytes) {
        Ok(()) => Ok(bytes),
        Err(end) => Err(unread(alloc, name, end)),
    }
}

/// The ending where the file of this name is not read so.
fn unread(alloc: Global, name: &str, end: FileEnd) -> Ending
    ensures { IsUnreadSo name.now end result }
{
    match end {
        FileEnd::Missing => unread_because(alloc, name, NotRead::Missing),
        FileEnd::TooLong => unread_because(alloc, name, NotRead::TooLong),
        FileEnd::Failed => unread_because(alloc, name, NotRead::Failed),
        FileEnd::OutOfMemory => Ending::OutOfMemory,
    }
}

/// The ending where no model was read of the file of this name.
fn no_model(alloc: Global, name: &str, end: ModelFileEnd) -> Ending
    ensures { IsNoModelSo name.now end result }
{
    match end {
        ModelFileEnd::Missing => unread_because(alloc, name, NotRead::Missing),
        ModelFileEnd::TooLong => unread_because(alloc, name, NotRead::TooLong),
        ModelFileEnd::Failed => unread_because(alloc, name, NotRead::Failed),
        ModelFileEnd::Refused(fault) => Ending::ModelRefused(fault),
        ModelFileEnd::OutOfMemory => Ending::OutOfMemory,
    }
}

fn unread_because(alloc: Global, name: &str, why: NotRead) -> Ending
    ensures { IsUnreadBecause name.now why result }
{
    match Items::from_slice(alloc, name.as_bytes()) {
        Ok(name) => Ending::Unread(name, why),
        Err(_) => Ending::OutOfMemory,
    }
}

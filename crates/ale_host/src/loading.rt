//! What a load has from its texts, and the line that it reports.

ghost use Rattle.std.specs.Prelude.{◌≡◌, ◌++◌, ◌+◌, ◌≤◌, ℕ, length, Ok, IfErr, IfOk, OnOk};
ghost use Rattle.std.specs.Arc.{arc_value};
ghost use Rattle.std.specs.Fmt.{decimal};
ghost use Rattle.ale_base.specs.Lines.{lines_of};
ghost use Rattle.idoc_file.specs.DocumentFile.{AreDocuments};
ghost use Rattle.idoc_file.specs.Reading.{Stands};
ghost use Rattle.model_text.specs.Text.{answer_to};
ghost use Rattle.script_text.specs.Script.{script_of};
ghost use Rattle.ale_host.specs.LoadModel.{load_model};
ghost use Rattle.ale_host.specs.Load.{documents, script};
ghost use Rattle.ale_host.specs.Loading.{EndsLoad, load_line};
ghost use Rattle.ale_host.specs.Prepared.{AreMasters, IsLoaded};

use crate::ending::Ending;
use crate::inputs::{SaidModel, refused, with_names};
use crate::load_documents::load_documents;
use crate::load_model::load_model;
use crate::load_script::load_script;
use crate::pass_text::put;
use crate::prepared::{Prepared, masters_of, prepared_from};
use crate::words::MAX_MASTERS;
use ale_base::{Items, OutOfMemory};
use dist_model::Model;
use idoc_file::{RawDoc, Reader};
use landscape::Counts;
use model_text::ModelFault;
use script_text::{Command, ScriptFault};
use std::alloc::Global;
use std::sync::Arc;
use unit_core::RawUnitDoc;

/// What a load of so many masters has from its texts, or how it ends at one of them.
pub(crate) fn read_load(alloc: Global, masters: u32) -> Result<Prepared, Ending>
    requires { masters ≤ MAX_MASTERS }
    ensures says { IfOk result (IsLoaded masters) }
    ensures ends { IfErr result (EndsLoad masters) }
{
    match said_model(alloc) {
        Ok(said) => read_behind_model(alloc, masters, said),
        Err(ending) => Err(ending),
    }
}

/// What a load of so many masters has where its model was read; or how it ends at its documents or its script.
fn read_behind_model(alloc: Global, masters: u32, said: SaidModel) -> Result<Prepared, Ending>
    requires masters { masters ≤ MAX_MASTERS }
    requires text { said.text ≡ load_model }
    requires says { answer_to load_model ≡ Ok (arc_value said.model) }
    requires names { arc_value said.names ≡ arc_value said.model }
    ensures says { IfOk result (IsLoaded masters) }
    ensures ends { IfErr result (EndsLoad masters) }
{
    match said_masters(alloc, masters) {
        Ok(all) => match said_commands(alloc, masters) {
            Ok(commands) => Ok(prepared_from(said, all, commands)),
            Err(ending) => Err(ending),
        },
        Err(ending) => Err(ending),
    }
}

/// The model of a load.
fn said_model(alloc: Global) -> Result<SaidModel, Ending>
    ensures text { IfOk result (λ file. file.text ≡ load_model) }
    ensures says { IfOk result (λ file. answer_to load_model ≡ Ok (arc_value file.model)) }
    ensures names { IfOk result (λ file. arc_value file.names ≡ arc_value file.model) }
    ensures ends { (masters : ℕ) → IfErr result (EndsLoad masters) }
{
    match model_text::read(alloc, load_model()) {
        Ok(model) => match with_text(alloc, model) {
            Ok(file) => Ok(file),
            Err(OutOfMemory) => Err(Ending::OutOfMemory),
        },
        Err(ModelFault::OutOfMemory) => Err(Ending::OutOfMemory),
        Err(fault) => Err(Ending::ModelRefused(fault)),
    }
}

/// The model of a load, with its text.
fn with_text(alloc: Global, model: Model) -> Result<SaidModel, OutOfMemory>
    ensures text { IfOk result (λ file. file.text ≡ load_model) }
    ensures model { IfOk result (λ file. arc_value file.model ≡ model) }
    ensures names { IfOk result (λ file. arc_value file.names ≡ model) }
{
    let text = Items::from_slice(alloc, load_model())?;
    let model = Arc::new(alloc, model)?;
    with_names(text, model)
}

/// The masters of a load.
fn said_masters(alloc: Global, masters: u32) -> Result<Items<RawUnitDoc>, Ending>
    requires { masters ≤ MAX_MASTERS }
    ensures says { IfOk result (AreMasters (lines_of (documents masters))) }
    ensures ends { IfErr result (EndsLoad masters) }
{
    match said_documents(alloc, masters) {
        Ok(documents) => match masters_of(alloc, documents) {
            Ok(all) => Ok(all),
            Err(OutOfMemory) => Err(Ending::OutOfMemory),
        },
        Err(ending) => Err(ending),
    }
}

/// The documents of a load.
fn said_documents(alloc: Global, masters: u32) -> Result<Items<RawDoc>, Ending>
    requires { masters ≤ MAX_MASTERS }
    ensures says { IfOk result (AreDocuments (lines_of (documents masters))) }
    ensures ends { IfErr result (EndsLoad masters) }
{
    match fed(alloc, masters) {
        Ok(reader) => match reader.end() {
            Ok(documents) => Ok(documents),
            Err(fault) => match refused(fault) {
                Ok(ending) => Err(ending),
                Err(OutOfMemory) => Err(Ending::OutOfMemory),
            },
        },
        Err(OutOfMemory) => Err(Ending::OutOfMemory),
    }
}

/// A reader that was fed the documents of a load.
fn fed(alloc: Global, masters: u32) -> Result<Reader, OutOfMemory>
    requires { masters ≤ MAX_MASTERS }
    ensures { IfOk result (λ reader. Stands reader (documents masters)) }
{
    let text = load_documents(alloc, masters)?;
    let mut reader = Reader::new(alloc);
    reader.feed(text.as_slice())?;
    Ok(reader)
}

/// The commands of a load.
fn said_commands(alloc: Global, masters: u32) -> Result<Items<Command>, Ending>
    ensures says { IfOk result (λ commands. script_of (script masters) ≡ Ok commands) }
    ensures ends { IfErr result (EndsLoad masters) }
{
    match load_script(alloc, masters) {
        Ok(text) => match script_text::read(alloc, text.as_slice()) {
            Ok(commands) => Ok(commands),
            Err(ScriptFault::OutOfMemory) => Err(Ending::OutOfMemory),
            Err(fault) => Err(Ending::ScriptRefused(fault)),
        },
        Err(OutOfMemory) => Err(Ending::OutOfMemory),
    }
}

/// The line of a load with these counts.
pub(crate) fn load_line(alloc: Global, counts: Counts) -> Result<Vec<u8>, OutOfMemory>
    ensures { IfOk result (λ text. text.items ≡ load_line counts) }
{
    let mut text = Vec::new(alloc);
    put_counted(alloc, &mut text, b"masters ", counts.masters)?;
    put_counted(alloc, &mut text, b" units ", counts.units)?;
    put_counted(alloc, &mut text, b" received ", counts.received)?;
    put_counted(alloc, &mut text, b" executed ", counts.executed)?;
    put_counted(alloc, &mut text, b" ended ", counts.ended)?;
    put(&mut text, b"\n")?;
    Ok(text)
}

/// Appends a word and a number.
fn put_counted(
    alloc: Global,
    text: &mut Vec<u8>,
    word: &[u8],
    number: u64,
) -> Result<(), OutOfMemory>
    ensures { OnOk result (text.new.items ≡ text.old.items ++ (word.now ++ decimal number)) }
{
    put(text, word)?;
    put(text, number.to_string(alloc)?.as_bytes())
}

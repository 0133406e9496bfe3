//! Reading a model from a file.

ghost use Rattle.std.specs.Prelude.{◌≡◌, ℕ, List, Ok, IfOk, IfErr, OnOk};
ghost use Rattle.std.specs.Arc.{arc_value};
ghost use Rattle.ale_base.specs.Faults.{Rose};
ghost use Rattle.model_text.specs.Text.{answer_to};
ghost use Rattle.model_files.specs.ModelFile.{end_of, EndsModelFile, IsNotSaid, IsStillAt, SaysModelFile};
ghost use Rattle.model_files.specs.declared.end.ModelFileEnd.TheVariants.{OutOfMemory};

use crate::ModelFileEnd;
use ale_base::Items;
use ale_io::{FileEnd, Files};
use dist_model::Model;
use model_text::{MAX_BYTES, ModelFault};
use std::alloc::Global;
use std::sync::Arc;

/// A model, and the text that says it.
#[derive(Drop)]
pub struct ModelFile {
    /// The text.
    pub text: Items<u8>,
    /// The model.
    pub model: Arc<Model>,
}

/// The model that the file of this name says, with its text. A text of more than 1,048,576 bytes is not read.
pub fn read<F: Files>(alloc: Global, name: &str, files: &mut F) -> Result<ModelFile, ModelFileEnd>
    ensures says { IfOk result (λ file. SaysModelFile (F.told files.old name.now) file.text (arc_value file.model)) }
    ensures ends { IfErr result (EndsModelFile (F.told files.old name.now) (Rose (F.faults files.old) (F.faults files.new))) }
    ensures kept { (other : List ℕ) → F.told files.new other ≡ F.told files.old other }
    ensures quiet { OnOk result (F.faults files.new ≡ F.faults files.old) }
    ensures still { IfErr result (λ why. IsStillAt why (F.faults files.old) (F.faults files.new)) }
{
    let mut text = Vec::new(alloc);
    match files.read_file(name, MAX_BYTES, &mut text) {
        Err(end) => Err(unread(end)),
        Ok(()) => said(alloc, Items::from_vec(text)),
    }
}

/// The end where the file was not read so.
fn unread(end: FileEnd) -> ModelFileEnd
    ensures { result ≡ end_of end }
{
    match end {
        FileEnd::Missing => ModelFileEnd::Missing,
        FileEnd::TooLong => ModelFileEnd::TooLong,
        FileEnd::Failed => ModelFileEnd::Failed,
        FileEnd::OutOfMemory => ModelFileEnd::OutOfMemory,
    }
}

/// The model that a text says, with the text.
fn said(alloc: Global, text: Items<u8>) -> Result<ModelFile, ModelFileEnd>
    ensures text { IfOk result (λ file. file.text ≡ text) }
    ensures says { IfOk result (λ file. answer_to text ≡ Ok (arc_value file.model)) }
    ensures no { IfErr result (IsNotSaid text) }
{
    match model_text::read(alloc, text.as_slice()) {
        Err(ModelFault::OutOfMemory) => Err(ModelFileEnd::OutOfMemory),
        Err(fault) => Err(ModelFileEnd::Refused(fault)),
        Ok(model) => with_text(alloc, text, model),
    }
}

/// A model with its text.
fn with_text(alloc: Global, text: Items<u8>, model: Model) -> Result<ModelFile, ModelFileEnd>
    ensures text { IfOk result (λ file. file.text ≡ text) }
    ensures model { IfOk result (λ file. arc_value file.model ≡ model) }
    ensures memory { IfErr result (λ why. why ≡ OutOfMemory) }
{
    match Arc::new(alloc, model) {
        Ok(model) => Ok(ModelFile { text, model }),
        Err(_) => Err(ModelFileEnd::OutOfMemory),
    }
}

//! What a run has from its files.

ghost use Rattle.std.specs.Prelude.{◌≡◌, IfOk};
ghost use Rattle.ale_host.specs.Running.{masters_of};
ghost use Rattle.ale_host.specs.Prepared.{prepared_of};

use crate::inputs::SaidModel;
use ale_base::{Items, OutOfMemory};
use dist_model::Model;
use idoc_file::RawDoc;
use runs::Inputs;
use script_text::Command;
use std::alloc::Global;
use std::sync::Arc;
use unit_core::{RawUnitDoc, Shared};

/// What a run has from its files.
#[derive(Drop)]
pub(crate) struct Prepared {
    /// The text of the model.
    pub(crate) text: Items<u8>,
    /// The model.
    pub(crate) model: Arc<Model>,
    /// The names of systems, and the masters.
    pub(crate) inputs: Inputs,
    /// The commands.
    pub(crate) commands: Items<Command>,
}

/// What a run has from its files, which say this.
pub(crate) fn prepared_from(
    said: SaidModel,
    masters: Items<RawUnitDoc>,
    commands: Items<Command>,
) -> Prepared
    ensures { result ≡ prepared_of said masters commands }
{
    let SaidModel { text, model, names } = said;
    let inputs = Inputs {
        model: names,
        masters,
    };
    Prepared {
        text,
        model,
        inputs,
        commands,
    }
}

/// The masters of documents.
pub(crate) fn masters_of(
    alloc: Global,
    documents: Items<RawDoc>,
) -> Result<Items<RawUnitDoc>, OutOfMemory>
    ensures { IfOk result (λ masters. masters ≡ masters_of documents) }
{
    let mut masters = Items::new(alloc);
    for document in documents.into_vec() {
        let RawDoc {
            control,
            segments,
            line: _,
        } = document;
        let control = Shared::new(alloc, control)?;
        masters.push(RawUnitDoc { control, segments })?;
    }
    Ok(masters)
}

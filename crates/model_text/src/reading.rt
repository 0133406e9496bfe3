//! The text of a model, read as a whole.

ghost use Rattle.std.specs.Prelude.{◌≡◌, IfOk, MatchResult};
ghost use Rattle.dist_model.specs.Model.{IsModel};
ghost use Rattle.model_text.specs.Says.{SaysText};
ghost use Rattle.model_text.specs.declared.fault.ModelFault.TheVariants.{OutOfMemory};
ghost use Rattle.model_text.specs.Text.{Reads, fault_of};

use crate::fault::ModelFault;
use crate::model::model_of;
use dist_model::{Lists, Model};
use model_keys::{Cause, ReadError};
use std::alloc::Global;
use std::str;

/// The most bytes of a model's text that the program reads.
pub const MAX_BYTES: usize = 1_048_576;

fn fault_of(error: ReadError) -> ModelFault
    ensures { result ≡ fault_of error }
{
    match error {
        ReadError::Memory => ModelFault::OutOfMemory,
        ReadError::Found(finding) => match finding.cause {
            Cause::Missing => ModelFault::Missing(finding.path),
            Cause::Unknown => ModelFault::Unknown(finding.path),
            Cause::Wrong => ModelFault::Wrong(finding.path),
            Cause::Twice => ModelFault::Twice(finding.path),
            Cause::Limit => ModelFault::Limit(finding.path),
            Cause::MandatoryRemoved => ModelFault::MandatoryRemoved(finding.path),
            Cause::NoVersion => ModelFault::NoVersion(finding.path),
        },
    }
}

fn indexed(alloc: Global, lists: Lists) -> Result<Model, ModelFault>
    requires { IsModel lists }
    ensures { MatchResult result (λ model. model ≡ lists) (λ fault. fault ≡ OutOfMemory) }
{
    match Model::new(alloc, lists) {
        Ok(model) => Ok(model),
        Err(_) => Err(ModelFault::OutOfMemory),
    }
}

/// The model that a text says, or its first fault: `Toml` where the bytes are no UTF-8 or no TOML, and else the first in
/// the order of the keys and sections of `docs/reference/model.md`, with the path to it.
pub fn read(alloc: Global, bytes: &[u8]) -> Result<Model, ModelFault>
    ensures said { Reads result bytes.now }
    ensures kept { IfOk result IsModel }
    ensures entries { IfOk result (SaysText bytes.now) }
{
    let Ok(text) = str::from_utf8(bytes) else {
        return Err(ModelFault::Toml);
    };
    match toml::table_from_str(alloc, text) {
        Err(error) if error.is_memory() => Err(ModelFault::OutOfMemory),
        Err(_) => Err(ModelFault::Toml),
        Ok(table) => match model_of(alloc, &table) {
            Ok(lists) => indexed(alloc, lists),
            Err(error) => Err(fault_of(error)),
        },
    }
}

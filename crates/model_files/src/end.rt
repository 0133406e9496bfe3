//! Why no model was read of a file.

ghost use Rattle.std.specs.Prelude.{◌≡◌, Some, IfOk};
ghost use Rattle.model_files.specs.Words.{words_of};

use ale_base::OutOfMemory;
use model_text::ModelFault;
use std::alloc::Global;
use thiserror::Error;

/// Why no model was read of a file.
#[derive(Debug, Drop, Error)]
pub enum ModelFileEnd {
    /// No file has the name.
    #[error("missing")]
    Missing,
    /// The file has more bytes than a model's text may have.
    #[error("too long")]
    TooLong,
    /// The read failed.
    #[error("fault")]
    Failed,
    /// The text of the file has this fault.
    #[error("the text is no model")]
    Refused(ModelFault),
    /// A request for memory was refused.
    #[error("out of memory")]
    OutOfMemory,
}

impl ModelFileEnd {
    /// The words that tell it: those of the model's fault, where its text has one. For want of memory there are none, and the
    /// answer is an `Err`.
    pub fn words(&self, alloc: Global) -> Result<Vec<u8>, OutOfMemory>
        ensures { IfOk result (λ words. words_of self.now ≡ Some words.items) }
    {
        match self {
            ModelFileEnd::Missing => Ok(Vec::from_slice(alloc, b"missing")?),
            ModelFileEnd::TooLong => Ok(Vec::from_slice(alloc, b"too long")?),
            ModelFileEnd::Failed => Ok(Vec::from_slice(alloc, b"fault")?),
            ModelFileEnd::Refused(fault) => fault.words(alloc),
            ModelFileEnd::OutOfMemory => Err(OutOfMemory),
        }
    }
}

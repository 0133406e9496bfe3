//! What of a model another one does not keep.

use case_form::{LineEnd, Text};
use dist_model::Model;
use model_growth::first_unkept;
use std::alloc::Global;

/// `unkept`: the path to the first part of a model that another one does not keep.
pub(crate) fn unkept(alloc: Global, old: &Model, new: &Model) -> Result<Vec<u8>, LineEnd> {
    let mut text = Text::new(alloc);
    match first_unkept(old.as_lists(), new.as_lists()) {
        None => text.put(b"none")?,
        Some(part) => text.put(part.path(alloc)?.as_slice())?,
    }
    text.end_line()?;
    Ok(text.into_bytes())
}

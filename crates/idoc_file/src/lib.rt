//! Document files: the documents that the bytes of a file hold, read as its pieces come.
//!
//! Contract: where a reader stands for the bytes that it was fed, `end` answers the documents of these bytes, or the
//! fault of their first bad line, however they were cut into pieces. The definitions are in `specs/`: `DocumentFile` (which
//! documents they hold, and what is wrong with a line), `Reading` (what a reader stands
//! for).
#![tactic(auto)]

mod documents;
mod file_fault;
mod lines_read;
mod raw_doc;
mod reader;

pub use documents::MAX_DOCUMENTS;
pub use file_fault::{FileFault, Quantity};
pub use raw_doc::RawDoc;
pub use reader::Reader;

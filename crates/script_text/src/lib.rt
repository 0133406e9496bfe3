//! Scripts: the commands of an operator, a line each.
//!
//! Contract: `read` gives exactly the commands that the bytes of a script say, or the fault of the first line that is not
//! read. The definitions are in `specs/`: `Words` (the words of a line), `Kinds` (the kinds of words), `Forms` (the table of
//! how commands are written, and what their words say), `Script` (the whole).
#![tactic(auto)]

mod command;
mod fault;
mod file_name;
mod form;
mod keyword;
mod kind;
mod making;
mod script;
mod shape;
mod words;

pub use command::Command;
pub use fault::ScriptFault;
pub use file_name::FileName;
pub use form::Form;
pub use script::{MAX_BYTES, read};

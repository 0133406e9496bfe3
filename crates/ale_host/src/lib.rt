//! The top call: what the program does for its words, from the files that it reads to the text that it prints.
//!
//! Contract: a run has an ending whose cause stands in its words and files, or is a fault or want of memory, and it puts exactly the text
//! of that ending; the bytes of a file have one. A `run` whose files were read is a list of turns, in each of which a command does what it
//! asks for, and the text that it puts is that of the turns and of its last line. The definitions are in `specs/`: `EndsSo` (what becomes
//! of the words), `Words`, `Feeding` (how far a file was read), `Inputs` (what `run` reads), `Load` (the documents and the script of a
//! load, byte for byte), `Loading` (what `load` reads and reports), `Running` (how they go on), `Refusals` (what
//! is printed of journals that are refused), `PassText`, `Ending`.
#![tactic(auto)]

mod document_file;
mod ending;
mod host;
mod inputs;
mod load_documents;
mod load_model;
mod load_script;
mod load_text;
mod loading;
mod pass_text;
mod prepared;
mod running;
mod unopened;
mod words;

pub use ending::{Ending, NotRead};
pub use host::{Ended, aleflow, out_of_memory};

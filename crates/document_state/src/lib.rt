//! The application of a landscape that works by a distribution model: the documents, objects and change pointers of a system, kept in
//! step with its log, and the rules by which its records may follow.
//!
//! Contract: tables that stand for a log stand for the log with one more record once it is noted, each record under the model in force
//! there. `ModelRules` are rules of the protocol that keep its laws, and answer for a legal log by the models that it names: which units
//! it commits, which record of the application may follow, which functions are offered; `is_allowed` says the second of a log by its
//! tables. The definitions are in `specs/`: `OfLog` (what is known behind a log), `Tables` (tables that stand for a log), `Made` (what
//! goes with a record), `Allowed` (which record may follow), `Meaning` (what the models of logs say of them), `LawfulLemmas` (that this
//! keeps the laws).
#![tactic(auto)]

mod allowing;
mod document_tables;
mod log_rules;
mod made;
mod model_rules;
mod noting;
mod replay;

pub use allowing::is_allowed;
pub use document_tables::DocumentTables;
pub use log_rules::read_log;
pub use made::Made;
pub use model_rules::ModelRules;

//! The form of case files, and the verdict on a case: what all acceptance programs share.
//!
//! Contract: a file has these items, each with its mark and its block, or this is its first line that breaks a rule
//! (`read_items`); a text stands for these bytes (`put_text`); a case passes exactly where each of its steps found what
//! the case expects, or, where the step is marked `differs`, did not (`Outcome::passes`); of a folder's cases the text
//! has a verdict each, in order, and a last line that counts them, and all passed exactly where the report says so
//! (`run_cases`). The definitions are in `specs/`: `Items` (the lines of a file, and its items), `Text` (words, numbers
//! and texts), `Rules`, `Verdict` (what fits, and when a case passes), `Report` (the text).
#![tactic(auto)]

mod answering;
mod building;
mod details;
mod dice;
mod folder;
mod item;
mod judging;
mod line;
mod making;
mod report;
mod rule;
mod text;
mod texts;
mod verdict;

pub use answering::{Bench, outcome_on};
pub use building::Text;
pub use dice::Dice;
pub use folder::run_folder;
pub use item::{BlockLine, Item, read_items};
pub use judging::{CaseFile, JudgedCase, Suite};
pub use report::{Report, run_cases};
pub use rule::{CaseFault, LineEnd, Rule};
pub use text::{cut, first_word, meaning_of, number_of, put_text, put_times};
pub use texts::Texts;
pub use verdict::{Comparison, Outcome, Relation, Step};

//! The words that every other crate uses: numbers of systems and documents, transaction ids, names of queues, texts
//! of a fixed width, and lists.
//!
//! Contract: each value is seen as what it stands for, and each spelling is exact in both directions. The
//! definitions are in `specs/`: `Blanks` (trimmed and padded texts), `Text`, `Lines` (the lines of a
//! file), `Prefix` (one list begins another), `Decimal`, `Hexadecimal`, `Tid`, `QueueName`,
//! `Faults` (a count of faults rose).
#![tactic(auto)]

mod blanks;
mod change;
mod doc_num;
mod fixed;
mod hexadecimal;
mod items;
mod lengths;
mod line_ends;
mod mark;
mod out_of_memory;
mod queue_name;
mod system_no;
mod tid;
mod way;

pub use blanks::trimmed;
pub use change::{Change, FieldValue};
pub use doc_num::DocNum;
pub use fixed::Fixed;
pub use items::Items;
pub use lengths::told_length;
pub use line_ends::{split_line, without_return};
pub use mark::Mark;
pub use out_of_memory::OutOfMemory;
pub use queue_name::{NameFault, QueueName};
pub use system_no::SystemNo;
pub use tid::Tid;
pub use way::Way;

//! A journal of entries over one volume: the log of a system, each entry of which is on the disk for good once it is
//! acknowledged; and the journals of all systems of a landscape, with the moments of the entries beside each log.
//!
//! Contract: `open` gives the entries that the volume's bytes stand for, the place of their damage, or the number of the
//! first record that is no entry, and `append` adds one entry and nothing else. A crash at any moment of an append leaves
//! the log before it or after it; a crash of an opening leaves what was handed in, or from some moment on, and after its
//! end, that log. The definitions are in `specs/`: `Log` (which log bytes stand for), `Settled` (a
//! journal that is ready for appends, and what opening answers), `Fault`. Lemmas for who builds on journals are in
//! `proofs/`: `SettledLemmas`, beside those of `byte_journal` and `ale_volumes`.
//!
//! `SystemJournals` are the journals of all systems: `open` gives the log that a system's volume holds, and `write` adds one
//! record to it and nothing else, with the larger of the moment that is set and the last of its log: moments do not fall. After
//! every error the journals are as before. A system that is down is opened by `look`, which compares its volume with the log
//! that is kept of it and with the record that it was writing, and `settle`, which enters what was found. Who calls them owns
//! the records; here are the moments alone. The definitions are
//! `OnDisk` (what a system's volume holds, while it is up and while it is down, and which moment is next), `Changes` (what a call
//! leaves as it was), `Opening` (what an opening answers, and leaves of the volume) and `Looking` (the same of a look). `KeptLemmas` has that what is on disk
//! stays so (`IsOnDisk-kept`, `IsLeftOnDisk-kept`, `IsOnDisk-with_moment`, `IsLeftOnDisk-with_moment`, `HaveMoments-one`), what a
//! crash leaves (`IsOnDisk-stands`, `IsOnDisk-any_moment`, `IsLeftOnDisk-any_moment`, `IsLeft-of`) and what a record more does
//! (`entries_at-push`); `OrderLemmas` has that moments stay in order (`AreInOrder-grown`, `AreInOrder-same`), and are where there
//! are none (`AreInOrder-none`, `AreInOrder-past`).
#![tactic(auto)]

mod comparing;
mod entries;
mod fault;
mod journal;
mod journals;
mod looked;
mod moments;
mod opening;
mod reopening;
mod system_opening;
mod volume;
mod writing;

pub use fault::{LogFault, LookFault};
pub use journal::UnitJournal;
pub use journals::SystemJournals;
pub use looked::Looked;
pub use opening::open;

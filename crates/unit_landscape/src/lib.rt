//! Systems that commit units, ship them, execute them and confirm them, by any rules, with the tables that follow their logs and the
//! volumes that hold them.
//!
//! Contract: each call is an event of the protocol, or says how it ended otherwise, and the world stays safe; the tables are in step with
//! it, the volumes hold its logs, and it is told why a system is down. A call that appends writes its record on one volume, and at every
//! moment of it a crash leaves the log of that system, perhaps with the record. What a call answers comes exactly where the logs and the
//! claims say so. A landscape begins over volumes that are opened one after the other, and each empty log gets its Genesis. A volume gives
//! the log that it stands for, which the caller judges, or is refused, exactly for its cause, and left as it reads; the logs of all are
//! asked whether they keep the exactly-once law. A system that is down is opened again over its volume: with the log that is kept of it, and
//! with the record that it was writing exactly where that was found.
//!
//! The definitions are in `specs/`: `Kept` (what a landscape keeps), `KeptWorlds`, `InStep`, `OnVolumes` and `Causes` (a world with its
//! tables, its volumes, and why systems are down), `Tables` (the tables of a system that is up), `Writes` (the record of an event), `Ends`
//! (how a call ends), `Calls`, `Late` and `Quiet` (what each call answers), `Opening`, `Volumes`, `Breaches` and `Beginning` (a landscape
//! that begins), `Reopening` (a system that is opened again). The others say the steps in between: `Claims`, `Joining`, `Entered`, `Noting`
//! and `Changed` (a record that joins a log, before and after it is written), `AppendEnds` and `Appending` (how an append ends),
//! `LogAnswers`, `ClaimAnswers` and `Claiming` (which unit may be claimed).
#![tactic(auto)]

mod adding;
mod answers;
mod append_end;
mod appending;
mod beginning;
mod cause;
mod claims;
mod counted;
mod kept_world;
mod landscape;
mod letting_go;
mod noting;
mod opening;
mod world_tables;
mod writing;

pub use answers::{
    Arrival, Closed, Confirmed, Finished, Late, LateEnd, OperatorEnd, Replied, Reply, WorkEnd,
};
pub use append_end::AppendEnd;
pub use beginning::{BeginEnd, MOST_TEXT, begin, reopened};
pub use cause::Cause;
pub use claims::{InClaim, OutClaim, Receipt};
pub use kept_world::KeptWorld;
pub use landscape::UnitLandscape;
pub use opening::{NotOpened, OpenFault, OpenedVolume, Opening};
pub(crate) use world_tables::WorldTables;

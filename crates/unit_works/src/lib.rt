//! The works of a drain: units are shipped under letters, executed and confirmed, until none is left.
//!
//! Contract: a landscape goes on by events that a letter lets happen, so many runs and executions end, and no claim goes but that of the
//! work, unless a system falls; the logs grow by exactly the records that the letter lets through, or by those before the one at which a
//! system fell: its volume failed, or that record did not fit on it; or the letter fells the receiver behind its records. What a drain is,
//! is defined here too: a list of such acts, in which each unit takes one letter at most, and more only where a system fell. It ends where
//! no unit is offered at any system in either direction, no claim is left, and no confirmation is due but those that were lost; and where
//! nothing held units up, each went its whole way. Letters that are added to a unit are behind those that it has left, and the first that
//! is left is the next that is taken. The definitions are in `specs/`: `Wires` (letters, and those that are left), `Events` (which events
//! are works), `Went` (how a landscape goes on), `Finished` (how many runs and executions have ended), `Claims` (which claims are left),
//! `Trips` (what is appended), `Acts` (a unit is shipped, executed or confirmed, and lists of that), `Claiming` (a unit is claimed),
//! `Works` (the first unit that is offered, or that of a claim, is shipped or executed), `Through` (nothing holds units up), `Drained` and
//! its two parts, `Rounds`.
#![tactic(auto)]

mod answering;
mod arriving;
mod confirming;
mod draining;
mod ending;
mod executing;
mod felling;
mod letter;
mod letters;
mod line;
mod rounds;
mod shipping;
mod wires;

pub use confirming::confirm;
pub use draining::{confirm_all, go_rounds};
pub use executing::{claim_to_execute, execute_claimed, execute_next};
pub use letter::Letter;
pub use shipping::{claim_to_ship, ship_claimed, ship_next};
pub use wires::Wires;

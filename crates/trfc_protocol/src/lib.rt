//! The protocol of transactional and queued calls as a pure machine: the logs of all systems and the claims of their
//! workers, and what each event makes of them.
//!
//! Contract: from a world that is safe every list of events gives a world that is safe, so each unit is taken and
//! executed at most once, and in the order of its queues, whatever is lost or repeated and whichever systems fall and are
//! opened; and each step is exactly that of the definition. The definitions are in `specs/`: `Meaning` and `Legal` (the
//! rules of a landscape, and which record may follow a log), `Worlds`, `Offered`, `RecordOf`, `Keeping` and
//! `Happens` (the events), `Safe`, and `Start` (a world that begins with given logs).
#![tactic(auto)]

mod answer;
mod event;
mod happens;
mod held;
mod keeping;
mod legal;
mod offered;
mod rules;
mod start;
mod steps;
mod world;

pub use answer::Answer;
pub use event::{Action, CoreAnswer, Event, ReplyTo};
pub use held::{Held, HeldKind};
pub use legal::{is_legal, may_follow};
pub use rules::Rules;
pub use steps::{run_events, step};
pub use world::{SystemState, World};

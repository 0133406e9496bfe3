//! The segments of a document as trees, by its IDoc type.
//!
//! Contract: data records become the forest that they spell exactly where it is valid by the IDoc type, and else have
//! their first fault named; and a forest becomes its data records, which spell it again where it hangs together and its
//! data fit their definitions. Copies have the forest of what was copied. The definitions are in `specs/`: `Forest` and
//! `Nodes` (trees as data), `Parts` (a part of a forest, for crates above), `Spells`, `Valid`, `Siblings` (beside which
//! segments the next one would stand), `Builds`, `Lines`; those in `specs/steps/` serve private functions alone.
#![tactic(auto)]

mod building;
mod copying;
mod fault;
mod growing;
mod lacking;
mod lines;
mod node;

pub use building::build;
pub use copying::copied_nodes;
pub use fault::SyntaxFault;
pub use lines::flatten;
pub use node::{Doc, Node};

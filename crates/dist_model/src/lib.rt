//! The distribution model of a landscape: its releases and systems, segment types and IDoc types, and what is sent from
//! which system to which; and tables of names and numbers that know the place of each.
//!
//! Contract: what all models keep is `IsModel`, by the type `Model`. `Model::system`, `message`, `receivers`, `outbound` and
//! `inbound` find exactly what a name, a sender, a row or a way stands for. A table (`Names`, `Numbers`, `Triples`) is the list of
//! what was added to it, in order and each once, and `place` finds the first place exactly. The definitions are in `specs/`, a
//! module a section of the model; `Model` has those over all, and `Triple` equal triples.
#![tactic(auto)]

mod fields;
mod filter;
mod inbound;
mod index;
mod kind;
mod limits;
mod lists;
mod message;
mod model;
mod named;
mod names;
mod numbers;
mod outbound;
mod row;
mod system;
mod triples;
mod way;

pub use fields::{all_fields, entries_at, field_named, has_entry, message_entries};
pub use filter::{FieldPlace, Filter};
pub use inbound::{Inbound, InboundMode};
pub use kind::Kind;
pub use limits::{
    LONGEST_PORT, LONGEST_RELEASE, LONGEST_SYSTEM, MOST_CONVERSIONS, MOST_ENTRIES, MOST_FILTERS,
    MOST_FUNCTIONS, MOST_GROUPS, MOST_IDOC_TYPES, MOST_INBOUND, MOST_KEPT, MOST_KINDS,
    MOST_MESSAGES, MOST_OUTBOUND, MOST_PACKET, MOST_REDUCED, MOST_RELEASES, MOST_ROWS, MOST_RULES,
    MOST_SYSTEMS, MOST_VALUES,
};
pub use lists::Lists;
pub use message::{Message, MessageNo, PostingMode, Reduced};
pub use model::Model;
pub use named::{
    idoc_type_name, idoc_type_name_of, kind_name, message_name, reduced_name, segment_name,
    system_name,
};
pub use names::Names;
pub use numbers::Numbers;
pub use outbound::{Convert, Outbound, QueueRule};
pub use row::{Choice, Group, Row, RowNo};
pub use system::System;
pub use triples::Triples;
pub use way::{outbound_way, row_way};

//! The lists of a model.

use crate::{Filter, Inbound, Kind, Message, Outbound, Reduced, Row, System};
use ale_base::Items;
use segment_defs::{Definitions, IdocType};

/// The lists of a distribution model. `IsModel` says which rules those of a model keep.
#[derive(Drop)]
pub struct Lists {
    /// The names of the releases, in order.
    pub releases: Items<Items<u8>>,
    /// The systems. The number of one is one more than its place.
    pub systems: Items<System>,
    /// The segment types with their definitions.
    pub definitions: Definitions,
    /// The IDoc types.
    pub types: Items<IdocType>,
    /// The kinds of business objects.
    pub kinds: Items<Kind>,
    /// The message types.
    pub messages: Items<Message>,
    /// The reduced message types.
    pub reduced: Items<Reduced>,
    /// The filters.
    pub filters: Items<Filter>,
    /// The rows: which messages go from which system to which.
    pub rows: Items<Row>,
    /// The profiles of what is sent.
    pub outbound: Items<Outbound>,
    /// The profiles of what is received.
    pub inbound: Items<Inbound>,
}

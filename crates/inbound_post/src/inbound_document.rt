//! A document that came in.

use ale_base::SystemNo;
use unit_core::RawUnitDoc;

/// A document that came in, without its statuses.
#[derive(Drop)]
pub struct InboundDocument {
    /// The system that sent it.
    pub sender: SystemNo,
    /// The document.
    pub document: RawUnitDoc,
}

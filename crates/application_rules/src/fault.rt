//! Why a document may not be a master.

use idoc_tree::SyntaxFault;
use thiserror::Error;

/// Why a document may not be a master.
#[derive(Debug, Drop, Error)]
pub enum MasterFault {
    /// MESTYP stands for no message type, or IDOCTYP names another IDoc type than that of the message type.
    #[error("MESTYP stands for no message type, or IDOCTYP names another IDoc type")]
    Unknown,
    /// The data records are no document of the IDoc type of the message type. The fault is never `OutOfMemory`.
    #[error("{0}")]
    Syntax(SyntaxFault),
    /// A request for memory was refused.
    #[error("out of memory")]
    OutOfMemory,
}

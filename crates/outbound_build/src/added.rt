//! What a record adds to the documents and units of a log.

use ale_base::{DocNum, Items, NameFault};
use dist_model::RowNo;
use std::alloc::AllocError;
use unit_core::{AleUnit, RawUnitDoc};

/// What becomes of a document when it is committed.
#[derive(Clone, Copy, PartialEq, Eq)]
pub enum Fate {
    /// A unit carries it at once.
    Sent,
    /// It waits until a Dispatch.
    Waits,
    /// The name of a queue that it would be in is none, so no unit carries it.
    Refused(NameFault),
}

/// A document that was made of a master for one receiver.
#[derive(Drop)]
pub struct OutDocument {
    /// Its number, from 1, among the outbound documents of its system.
    pub number: DocNum,
    /// The row of the model by which it was made.
    pub row: RowNo,
    /// What becomes of it.
    pub fate: Fate,
    /// The document.
    pub document: RawUnitDoc,
}

/// A unit, and which documents it carries.
#[derive(Drop)]
pub struct OutUnit {
    /// The unit.
    pub unit: AleUnit,
    /// The numbers of its documents, in their order in the unit.
    pub documents: Items<DocNum>,
}

/// What a record adds to the outbound documents and to the units of its log.
#[derive(Drop)]
pub struct Added {
    /// The documents that it makes, in the order of their numbers.
    pub documents: Items<OutDocument>,
    /// The units that it makes, in the order of their numbers.
    pub units: Items<OutUnit>,
}

/// A document that waits for a Dispatch.
#[derive(Drop)]
pub struct Waiting {
    /// Its number.
    pub number: DocNum,
    /// The row of the model by which it was made.
    pub row: RowNo,
    /// The document.
    pub document: RawUnitDoc,
}

impl Clone for Waiting {
    ghost use Rattle.std.specs.Prelude.{◌≡◌};

    ghost is_clone = { λ one copy. copy ≡ one };

    fn clone(&self) -> Result<Waiting, AllocError> {
        Ok(Waiting {
            number: self.number,
            row: self.row,
            document: self.document.clone()?,
        })
    }
}

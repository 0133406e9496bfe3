//! A segment without those below it.

use ale_base::Items;
use segment_defs::{TypeNo, VersionNo};
use std::marker::Model;

/// A segment without those below it.
#[derive(Drop)]
pub(crate) struct Head {
    pub(crate) segment: TypeNo,
    pub(crate) version: VersionNo,
    pub(crate) sdata: Items<u8>,
}

impl Model for Head {
    ghost use Rattle.idoc_tree.specs.Forest.{Segment};

    ghost Value = { Segment };

    ghost view = { λ head. record { type = head.segment; version = head.version; sdata = head.sdata } };
}

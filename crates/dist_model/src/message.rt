//! Message types, and those that are reduced.

use crate::FieldPlace;
use ale_base::Items;
use std::marker::Model;

/// The number of a message type: its place from 0 among those of the model. Contracts see the number.
#[derive(Clone, Copy, PartialEq, Eq)]
pub struct MessageNo(pub u16);

impl Model for MessageNo {
    ghost use Rattle.std.specs.Prelude.{ℕ};

    ghost Value = { ℕ };

    ghost view = { λ m. m.0 };

    ghost inverse = { λ n. record { 0 = n } };
}

/// What a posting of a message does to the object.
#[derive(Clone, Copy, PartialEq, Eq)]
pub enum PostingMode {
    /// It makes the object, or changes it where it is there.
    Upsert,
    /// It makes the object, and is refused where that is there.
    Insert,
}

/// A message type: documents of one IDoc type about objects of one kind.
#[derive(Drop)]
pub struct Message {
    /// The name.
    pub name: Items<u8>,
    /// The IDoc type, by its place from 0.
    pub idoctype: u16,
    /// The kind, by its place from 0.
    pub kind: u16,
    /// What a posting does.
    pub posting: PostingMode,
    /// The fields without which an object is not posted.
    pub required: Items<u16>,
    /// The fields whose changes make documents.
    pub pointers: Items<u16>,
}

/// A reduced message type: one of which some fields are not sent.
#[derive(Drop)]
pub struct Reduced {
    /// The name.
    pub name: Items<u8>,
    /// The message type that is reduced.
    pub message: MessageNo,
    /// The fields that are sent, of the segment types that are named here. The others are sent whole.
    pub keep: Items<FieldPlace>,
}

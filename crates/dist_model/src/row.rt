//! The rows of a model: which messages go from which system to which.

use crate::MessageNo;
use ale_base::{Items, SystemNo};
use std::marker::Model;

/// The number of a row: its place from 0 among those of the model. Contracts see the number.
#[derive(Clone, Copy, PartialEq, Eq)]
pub struct RowNo(pub u16);

impl Model for RowNo {
    ghost use Rattle.std.specs.Prelude.{ℕ};

    ghost Value = { ℕ };

    ghost view = { λ r. r.0 };

    ghost inverse = { λ n. record { 0 = n } };
}

/// Documents of a message type go from one system to another.
#[derive(Drop)]
pub struct Row {
    /// The system that sends.
    pub sender: SystemNo,
    /// The system that receives, another one.
    pub receiver: SystemNo,
    /// The message type.
    pub message: MessageNo,
    /// What is sent: the segments that pass one of the groups. All of them where there is no group.
    pub group: Items<Group>,
}

/// Conditions that a segment has to meet together.
#[derive(Drop)]
pub struct Group {
    /// A condition a filter.
    pub choices: Items<Choice>,
}

/// The condition of a filter: its field has one of these values.
#[derive(Drop)]
pub struct Choice {
    /// The filter, by its place from 0 among those of the model.
    pub filter: u16,
    /// The values.
    pub values: Items<Items<u8>>,
}

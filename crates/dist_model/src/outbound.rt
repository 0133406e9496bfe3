//! Profiles of what is sent.

use crate::{FieldPlace, MessageNo};
use ale_base::{Fixed, Items, SystemNo};
use segment_defs::TypeNo;

/// How documents of a message type are sent from one system to another.
#[derive(Drop)]
pub struct Outbound {
    /// The system that sends.
    pub sender: SystemNo,
    /// The system that receives, another one.
    pub receiver: SystemNo,
    /// The message type.
    pub message: MessageNo,
    /// 2 where each document is sent as a unit of its own at once, 4 where documents are collected.
    pub outmod: u8,
    /// The most documents of a unit.
    pub packet: u32,
    /// The release whose definitions are sent, by its place from 0.
    pub release: u8,
    /// The reduced message type that is sent in place of the message type, by its place from 0.
    pub reduced: Option<u16>,
    /// The segment types that are not sent.
    pub remove: Items<TypeNo>,
    /// The values that are replaced.
    pub convert: Items<Convert>,
    /// The port of the receiver, at most 10 bytes.
    pub port: Items<u8>,
    /// The function that the receiver executes.
    pub function: Fixed<30>,
    /// The rules that name the queues of the sender.
    pub outq: Items<QueueRule>,
    /// The rules that name the queues of the receiver.
    pub inq: Items<QueueRule>,
}

/// A value of a field that another one replaces.
#[derive(Drop)]
pub struct Convert {
    /// The segment type.
    pub segment: TypeNo,
    /// The field, by its place from 0 among those of the newest definition.
    pub field: u16,
    /// The value that is replaced, without blanks at its end.
    pub from: Items<u8>,
    /// The value in its place.
    pub to: Items<u8>,
}

/// A rule that names a queue: a text, and behind it perhaps the value of a field.
#[derive(Drop)]
pub struct QueueRule {
    /// The text, at most 24 bytes.
    pub text: Items<u8>,
    /// The field.
    pub place: Option<FieldPlace>,
}

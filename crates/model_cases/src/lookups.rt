//! What is looked up in a model.

use crate::rules::NO_SUCH_NUMBER;
use ale_base::SystemNo;
use case_form::{LineEnd, Text, first_word, number_of};
use dist_model::{Inbound, InboundMode, MessageNo, Model, RowNo};
use std::alloc::Global;

/// `system_named NAME`: the number of the system of this name.
pub(crate) fn system_named(alloc: Global, model: &Model, name: &[u8]) -> Result<Vec<u8>, LineEnd> {
    match model.system(name) {
        None => none(alloc),
        Some(system) => named(alloc, b"system", &[u64::from(system.get())]),
    }
}

/// `message_named NAME`: the message type that a name stands for, by its place.
pub(crate) fn message_named(alloc: Global, model: &Model, name: &[u8]) -> Result<Vec<u8>, LineEnd> {
    match model.message(name) {
        None => none(alloc),
        Some(message) => named(alloc, b"message", &[u64::from(message.0)]),
    }
}

/// `receivers SENDER MESSAGE`: the rows of a system and a message type, by their places.
pub(crate) fn receivers(alloc: Global, model: &Model, words: &[u8]) -> Result<Vec<u8>, LineEnd> {
    let (sender, message) = first_word(words);
    let Some(sender) = system_of(number_of(sender)?) else {
        return Err(NO_SUCH_NUMBER.into());
    };
    let message = number_of(message)?;
    if message as usize >= model.as_lists().messages.len() {
        return Err(NO_SUCH_NUMBER.into());
    }
    let rows = model.receivers(alloc, sender, MessageNo(message as u16))?;
    let mut places = Vec::new(alloc);
    for row in &rows {
        places.push(u64::from(row.0))?;
    }
    named(alloc, b"rows", places.as_slice())
}

/// `outbound_of ROW`: the sender, the receiver and the message type of the profile of a row.
pub(crate) fn outbound_of(alloc: Global, model: &Model, word: &[u8]) -> Result<Vec<u8>, LineEnd> {
    let row = number_of(word)?;
    if row as usize >= model.as_lists().rows.len() {
        return Err(NO_SUCH_NUMBER.into());
    }
    let profile = model.outbound(RowNo(row as u16));
    let sender = u64::from(profile.sender.get());
    let receiver = u64::from(profile.receiver.get());
    named(
        alloc,
        b"outbound",
        &[sender, receiver, u64::from(profile.message.0)],
    )
}

/// `inbound_of RECEIVER SENDER NAME`: the profile by which a system posts.
pub(crate) fn inbound_of(alloc: Global, model: &Model, words: &[u8]) -> Result<Vec<u8>, LineEnd> {
    let (receiver, rest) = first_word(words);
    let (sender, name) = first_word(rest);
    let Some(receiver) = system_of(number_of(receiver)?) else {
        return Err(NO_SUCH_NUMBER.into());
    };
    let Some(sender) = system_of(number_of(sender)?) else {
        return Err(NO_SUCH_NUMBER.into());
    };
    match model.inbound(receiver, sender, name) {
        None => none(alloc),
        Some(profile) => inbound_told(alloc, profile),
    }
}

/// The receiver, the sender, the name and the mode of a profile.
fn inbound_told(alloc: Global, profile: &Inbound) -> Result<Vec<u8>, LineEnd> {
    let mut text = Text::new(alloc);
    text.put(b"inbound ")?;
    text.put_number(u64::from(profile.receiver.get()))?;
    text.put(b" ")?;
    text.put_number(u64::from(profile.sender.get()))?;
    text.put_word(profile.message.as_slice())?;
    text.put_line(match profile.mode {
        InboundMode::Immediate => b" immediate",
        InboundMode::Background => b" background",
    })?;
    Ok(text.into_bytes())
}

fn none(alloc: Global) -> Result<Vec<u8>, LineEnd> {
    named(alloc, b"none", &[])
}

/// A word and numbers, in a line.
fn named(alloc: Global, word: &[u8], numbers: &[u64]) -> Result<Vec<u8>, LineEnd> {
    let mut text = Text::new(alloc);
    text.put(word)?;
    for number in numbers {
        text.put(b" ")?;
        text.put_number(*number)?;
    }
    text.end_line()?;
    Ok(text.into_bytes())
}

/// The system of this number, if there is one.
fn system_of(number: u32) -> Option<SystemNo> {
    match u8::try_from(number) {
        Ok(number) => SystemNo::of(number),
        Err(_) => None,
    }
}

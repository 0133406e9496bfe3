//! What numbers of a model stand for, by name.

ghost use Rattle.std.specs.Prelude.{◌≡◌};
ghost use Rattle.dist_model.specs.Named.{idoc_type_name, kind_name, message_name, reduced_name, segment_name, system_name, idoc_type_name_of};

use crate::{Lists, MessageNo};
use ale_base::SystemNo;
use segment_defs::TypeNo;

/// The name of a system; no bytes where there is none of this number.
pub fn system_name(model: &Lists, system: SystemNo) -> &[u8]
    ensures { result.now ≡ system_name model.now system }
{
    let number = usize::from(system.get());
    match model.systems.get(number - 1) {
        None => &[],
        Some(system) => system.name.as_slice(),
    }
}

/// The name of a segment type; no bytes where there is no such segment type.
pub fn segment_name(model: &Lists, segment: TypeNo) -> &[u8]
    ensures { result.now ≡ segment_name model.now segment }
{
    let number = segment.0;
    match model.definitions.types.get(usize::from(number)) {
        None => &[],
        Some(segment_type) => segment_type.name.as_slice(),
    }
}

/// The name of an IDoc type; no bytes where there is no such IDoc type.
pub fn idoc_type_name(model: &Lists, place: u16) -> &[u8]
    ensures { result.now ≡ idoc_type_name model.now place }
{
    match model.types.get(usize::from(place)) {
        None => &[],
        Some(idoc_type) => idoc_type.name.as_slice(),
    }
}

/// The name of a kind; no bytes where there is no such kind.
pub fn kind_name(model: &Lists, place: u16) -> &[u8]
    ensures { result.now ≡ kind_name model.now place }
{
    match model.kinds.get(usize::from(place)) {
        None => &[],
        Some(kind) => kind.name.as_slice(),
    }
}

/// The name of a message type; no bytes where there is no such message type.
pub fn message_name(model: &Lists, message: MessageNo) -> &[u8]
    ensures { result.now ≡ message_name model.now message }
{
    let number = message.0;
    match model.messages.get(usize::from(number)) {
        None => &[],
        Some(message) => message.name.as_slice(),
    }
}

/// The name of the IDoc type of a message type; no bytes where there is no such message type.
pub fn idoc_type_name_of(model: &Lists, message: MessageNo) -> &[u8]
    ensures { result.now ≡ idoc_type_name_of model.now message }
{
    let number = message.0;
    match model.messages.get(usize::from(number)) {
        None => &[],
        Some(message) => idoc_type_name(model, message.idoctype),
    }
}

/// The name of a reduced message type; no bytes where there is no such reduced message type.
pub fn reduced_name(model: &Lists, place: u16) -> &[u8]
    ensures { result.now ≡ reduced_name model.now place }
{
    match model.reduced.get(usize::from(place)) {
        None => &[],
        Some(one) => one.name.as_slice(),
    }
}

//! Fields of records, appended to bytes: each kind once.

ghost use Rattle.std.specs.Prelude.{◌≡◌, ◌≤◌, ◌<◌, ◌^◌, OnOk, length, IsTrue, IfSome};
ghost use Rattle.std.specs.Int.{w8, w16, w32, w64};
ghost use Rattle.unit_codec.specs.Kind.{Puts, byte, number, sized, optional};
ghost use Rattle.unit_codec.specs.Condition.{IsName, IsText, HasDestination};
ghost use Rattle.unit_codec.specs.Fields.{name, text, way, cause, tid, queue, destination, doc_number};

use ale_base::{DocNum, Items, Mark, OutOfMemory, QueueName, Tid, Way};

/// A number of one byte.
#[tactic(auto, unfolding(crate::specs::Kind::number))]
pub(crate) fn put_byte(into: &mut Vec<u8>, value: u8) -> Result<(), OutOfMemory>
    ensures { OnOk result (Puts byte value into.old.items into.new.items) }
{
    into.push(value)?;
    Ok(())
}

/// A number of four bytes.
#[tactic(auto, unfolding(crate::specs::Kind::number))]
pub(crate) fn put_four_bytes(into: &mut Vec<u8>, value: u32) -> Result<(), OutOfMemory>
    ensures { OnOk result (Puts (number w32) value into.old.items into.new.items) }
{
    into.extend_from_slice(&value.to_be_bytes())?;
    Ok(())
}

/// A number of eight bytes.
#[tactic(auto, unfolding(crate::specs::Kind::number))]
pub(crate) fn put_eight_bytes(into: &mut Vec<u8>, value: u64) -> Result<(), OutOfMemory>
    ensures { OnOk result (Puts (number w64) value into.old.items into.new.items) }
{
    into.extend_from_slice(&value.to_be_bytes())?;
    Ok(())
}

/// Bytes behind their length in one byte.
#[tactic(auto, unfolding(crate::specs::Kind::sized))]
pub(crate) fn put_short_text(into: &mut Vec<u8>, value: &[u8]) -> Result<(), OutOfMemory>
    requires { length value.now < 2 ^ 8 }
    ensures { OnOk result (Puts (sized w8) value.now into.old.items into.new.items) }
{
    into.push(value.len() as u8)?;
    into.extend_from_slice(value)?;
    Ok(())
}

/// Bytes behind their length in two bytes.
#[tactic(auto, unfolding(crate::specs::Kind::sized))]
pub(crate) fn put_middle_text(into: &mut Vec<u8>, value: &[u8]) -> Result<(), OutOfMemory>
    requires { length value.now < 2 ^ 16 }
    ensures { OnOk result (Puts (sized w16) value.now into.old.items into.new.items) }
{
    into.extend_from_slice(&(value.len() as u16).to_be_bytes())?;
    into.extend_from_slice(value)?;
    Ok(())
}

/// A text of any bytes.
#[tactic(auto, unfolding(crate::specs::Kind::sized, crate::specs::Fields::text))]
pub(crate) fn put_text(into: &mut Vec<u8>, value: &Items<u8>) -> Result<(), OutOfMemory>
    requires { IsText value.now }
    ensures { OnOk result (Puts text value.now into.old.items into.new.items) }
{
    into.extend_from_slice(&(value.len() as u32).to_be_bytes())?;
    into.extend_from_slice(value.as_slice())?;
    Ok(())
}

/// The name of a message, a kind or a field.
#[tactic(auto, unfolding(crate::specs::Fields::name))]
pub(crate) fn put_name(into: &mut Vec<u8>, value: &Items<u8>) -> Result<(), OutOfMemory>
    requires { IsName value.now }
    ensures { OnOk result (Puts name value.now into.old.items into.new.items) }
{
    put_short_text(into, value.as_slice())
}

/// The origin of documents: the name of a message, or none.
#[tactic(auto, unfolding(crate::specs::Kind::optional))]
pub(crate) fn put_origin(into: &mut Vec<u8>, origin: &Option<Items<u8>>) -> Result<(), OutOfMemory>
    requires { IfSome origin.now IsName }
    ensures { OnOk result (Puts (optional name) origin.now into.old.items into.new.items) }
{
    match origin {
        None => put_byte(into, 0),
        Some(value) => {
            put_byte(into, 1)?;
            put_name(into, value)
        }
    }
}

/// A direction.
#[tactic(auto, unfolding(crate::specs::Fields::way))]
pub(crate) fn put_way(into: &mut Vec<u8>, value: Way) -> Result<(), OutOfMemory>
    ensures { OnOk result (Puts way value into.old.items into.new.items) }
{
    let number = match value {
        Way::Outgoing => 0,
        Way::Incoming => 1,
    };
    put_byte(into, number)
}

/// Why a unit waits.
#[tactic(auto, unfolding(crate::specs::Fields::cause))]
pub(crate) fn put_cause(into: &mut Vec<u8>, value: Mark) -> Result<(), OutOfMemory>
    ensures { OnOk result (Puts cause value into.old.items into.new.items) }
{
    let number = match value {
        Mark::Cpicerr => 1,
        Mark::Sysfail => 2,
    };
    put_byte(into, number)
}

/// A transaction id, by its 24 bytes.
#[tactic(auto, unfolding(crate::specs::Fields::tid))]
pub(crate) fn put_tid(into: &mut Vec<u8>, value: Tid) -> Result<(), OutOfMemory>
    ensures { OnOk result (Puts tid value into.old.items into.new.items) }
{
    // The numbers of an id are in their ranges, which its bytes do not tell.
    let _unit = value.unit();
    let _system = value.system().get();
    into.extend_from_slice(&value.bytes())?;
    Ok(())
}

/// The name of a queue.
#[tactic(auto, unfolding(crate::specs::Fields::queue), using(crate::proofs::RuleLemmas::is_queue_name))]
pub(crate) fn put_queue_name(into: &mut Vec<u8>, value: &QueueName) -> Result<(), OutOfMemory>
    ensures { OnOk result (Puts queue value.now into.old.items into.new.items) }
{
    put_short_text(into, value.bytes())
}

/// The destination of a queue.
#[tactic(auto, unfolding(crate::specs::Fields::destination))]
pub(crate) fn put_destination(
    into: &mut Vec<u8>,
    direction: Way,
    value: u8,
) -> Result<(), OutOfMemory>
    requires { HasDestination direction value }
    ensures { OnOk result (Puts (destination direction) value into.old.items into.new.items) }
{
    put_byte(into, value)
}

/// The number of a document.
#[tactic(auto, unfolding(crate::specs::Fields::doc_number))]
pub(crate) fn put_doc_number(into: &mut Vec<u8>, value: DocNum) -> Result<(), OutOfMemory>
    ensures { OnOk result (Puts doc_number value into.old.items into.new.items) }
{
    put_eight_bytes(into, value.0)
}

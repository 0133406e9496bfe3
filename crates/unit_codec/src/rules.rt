//! The rules of texts in fields.

ghost use Rattle.std.specs.Prelude.{◌≡◌, ◌≤◌, false, MatchOption, IsTrue, length};
ghost use Rattle.unit_core.specs.Queues.{has_name};
ghost use Rattle.unit_codec.specs.Fields.{is_name, is_function, is_segment, is_segment_data, ends_in_no_blank, is_queue, is_control};
ghost use Rattle.ale_base.specs.Tid.{tid_of};

use crate::limits::{MOST_DATA, MOST_NAME};
use ale_base::{Fixed, QueueName, Tid, trimmed};
use idoc_record::{Control, read_control};

/// Whether the bytes are the name of a message, a kind or a field: there are 1 to 30.
pub(crate) fn is_name(text: &[u8]) -> bool
    ensures { result ≡ is_name text.now }
{
    1 <= text.len() && text.len() <= MOST_NAME
}

/// Whether the bytes are the name of a function: 1 to 30, of which the last is no blank.
pub(crate) fn is_function(text: &[u8]) -> bool
    ensures { result ≡ is_function text.now }
{
    is_name(text) && ends_in_no_blank(text)
}

/// Whether the bytes are the name of a segment: 1 to 30, of which the last is no blank, and no name of another table.
pub(crate) fn is_segment(text: &[u8]) -> bool
    ensures { result ≡ is_segment text.now }
{
    is_function(text) && !text.starts_with(b"EDI_")
}

/// Whether the bytes are the data of a segment: at most 1,000, of which the last is no blank.
pub(crate) fn is_segment_data(text: &[u8]) -> bool
    ensures { result ≡ is_segment_data text.now }
{
    text.len() <= MOST_DATA && ends_in_no_blank(text)
}

fn ends_in_no_blank(text: &[u8]) -> bool
    ensures { result ≡ ends_in_no_blank text.now }
{
    trimmed(text) == text
}

/// The id that these bytes spell.
pub(crate) fn tid_of(bytes: &[u8]) -> Option<Tid>
    ensures { result ≡ tid_of bytes.now }
{
    Tid::read(bytes)
}

/// The name of a queue of these bytes. None exactly where they are none.
pub(crate) fn queue_of(text: &[u8]) -> Option<QueueName>
    ensures { MatchOption result (is_queue text.now ≡ false) (λ name. (name ≡ text.now) × IsTrue (is_queue text.now)) }
{
    QueueName::of(text).ok()
}

/// The control record of these bytes. None exactly where they are none.
pub(crate) fn control_of(bytes: &[u8]) -> Option<Control>
    requires { length bytes.now ≡ Control.LEN }
    ensures { MatchOption result (is_control bytes.now ≡ false) (λ control. (control ≡ bytes.now) × IsTrue (is_control bytes.now)) }
{
    read_control(bytes).ok()
}

/// A text of at most 30 bytes, of which the last is no blank, in a field of that width.
pub(crate) fn fixed_of(text: &[u8]) -> Fixed<30>
    requires fits { length text.now ≤ MOST_NAME }
    requires ends { IsTrue (ends_in_no_blank text.now) }
    ensures { result ≡ text.now }
{
    match Fixed::of(text) {
        Some(fixed) => fixed,
        // The text is no longer than its field.
        None => unreachable!(),
    }
}

/// Whether a name is among these.
pub(crate) fn has_name(name: &QueueName, names: &[QueueName]) -> bool
    ensures { result ≡ has_name name.now names.now }
{
    names.iter().any(|other| *other == *name)
}

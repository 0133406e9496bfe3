//! The control record, and how a line is read as one.

ghost use Rattle.std.specs.Prelude.{◌≡◌, ◌↔◌, ℕ, List, Ok};
ghost use Rattle.idoc_record.specs.Control.{IsControlLine, control_read, control_of, field_of, is_number, is_direction};

use crate::parts::put_padded;
use crate::{ControlField, RecordFault};
use ale_base::{told_length, trimmed};
use std::alloc::AllocError;
use std::marker::Model;

/// The length of a control record, in bytes.
pub(crate) const CONTROL_LEN: usize = 524;

/// A control record EDI_DC40: 524 bytes with TABNAM `EDI_DC40`, a DOCNUM of digits or blank, and a DIRECT of `1`, `2`
/// or blank. Contracts see the bytes.
#[derive(PartialEq, Eq, Drop)]
pub struct Control {
    bytes: [u8; 524],
}

impl Model for Control {
    ghost use Rattle.std.specs.Prelude.{ℕ, List};
    ghost use Rattle.idoc_record.specs.Control.{IsControl};

    ghost Value = { List ℕ };

    ghost view = { λ c. c.bytes };

    ghost invariant = { λ c. IsControl c.bytes };

    ghost inverse = { λ bytes. record { bytes = bytes } };
}

impl Control {
    ghost use Rattle.std.specs.Prelude.{◌≡◌, ◌≤◌, length};
    ghost use Rattle.ale_base.specs.Blanks.{trimmed};
    ghost use Rattle.idoc_record.specs.ControlField.{span_of};
    ghost use Rattle.idoc_record.specs.Parts.{with_text};
    ghost use Rattle.idoc_record.specs.Control.{IsControl, IsControlLine, IsAllowed, field_of, control_with, blank_text};

    /// The length of the record, in bytes.
    pub const LEN: usize = CONTROL_LEN;

    /// A record that holds the name of its table alone: all other fields are blank.
    pub fn blank() -> Control
        ensures fields { result ≡ control_with blank_text }
        ensures record { IsControl result }
    {
        let mut bytes = [b' '; 524];
        put_padded(&mut bytes, b"EDI_DC40");
        Control { bytes }
    }

    /// The text of a field, without the blanks at its end.
    pub fn get(&self, field: ControlField) -> &[u8]
        ensures text { result.now ≡ field_of self.now field }
        ensures fits { length result.now ≤ (span_of field).length }
        ensures record { IsControl self.now }
    {
        field_of(&self.bytes, field)
    }

    /// The bytes of the record.
    pub(crate) fn bytes(&self) -> &[u8]
        ensures bytes { result.now ≡ self.now }
        ensures line { IsControlLine self.now self.now }
    {
        &self.bytes
    }

    /// Writes the text of a field. The rest of the record stays.
    pub fn set(&mut self, field: ControlField, value: &[u8])
        requires fits { length value.now ≤ (span_of field).length }
        requires allowed { IsAllowed field (trimmed value.now) }
        ensures written { self.new ≡ with_text (span_of field) value.now self.old }
        ensures record { IsControl self.new }
    {
        let span = field.span();
        let (_, rest) = self.bytes.split_at_mut(span.offset);
        let (place, _) = rest.split_at_mut(span.length);
        put_padded(place, value);
    }
}

impl Clone for Control {
    ghost use Rattle.std.specs.Prelude.{◌≡◌};

    ghost is_clone = { λ control copy. copy ≡ control };

    fn clone(&self) -> Result<Control, AllocError> {
        Ok(Control { bytes: self.bytes })
    }
}

/// The control record of a line, which ends where its blanks begin and may be shorter than the record.
///
/// The faults, in this order: `TooLong` where more than 524 bytes are left, `WrongTable` where TABNAM is not `EDI_DC40`,
/// `BadNumber` of DOCNUM where it has a byte that is no digit, and `BadNumber` of DIRECT where it is not `1`, `2` or
/// blank.
pub fn read_control(bytes: &[u8]) -> Result<Control, RecordFault>
    ensures record { (control : List ℕ) → (result ≡ Ok control) ↔ IsControlLine bytes.now control }
    ensures first_fault { result ≡ control_read bytes.now }
{
    let text = trimmed(bytes);
    if text.len() > Control::LEN {
        return Err(RecordFault::TooLong(told_length(text.len())));
    }
    let mut padded = [b' '; 524];
    put_padded(&mut padded, text);
    control_of(padded)
}

/// The bytes as a control record.
fn control_of(bytes: [u8; 524]) -> Result<Control, RecordFault>
    ensures { result ≡ control_of bytes }
{
    if field_of(&bytes, ControlField::Tabnam) != b"EDI_DC40".as_slice() {
        return Err(RecordFault::WrongTable);
    }
    if !is_number(field_of(&bytes, ControlField::Docnum)) {
        return Err(RecordFault::BadNumber(ControlField::Docnum));
    }
    if !is_direction(field_of(&bytes, ControlField::Direct)) {
        return Err(RecordFault::BadNumber(ControlField::Direct));
    }
    Ok(Control { bytes })
}

/// The text of a field, without the blanks at its end.
fn field_of(bytes: &[u8; 524], field: ControlField) -> &[u8]
    ensures { result.now ≡ field_of bytes.now field }
{
    let span = field.span();
    trimmed(&bytes[span.offset..span.offset + span.length])
}

fn is_number(text: &[u8]) -> bool
    ensures { result ≡ is_number text.now }
{
    text.iter().all(|byte| byte.is_ascii_digit())
}

fn is_direction(text: &[u8]) -> bool
    ensures { result ≡ is_direction text.now }
{
    text == b"1".as_slice() || text == b"2".as_slice() || text.is_empty()
}

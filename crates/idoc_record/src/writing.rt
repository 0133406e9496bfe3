//! Records as bytes, in full width.

ghost use Rattle.std.specs.Prelude.{◌≡◌, ◌+◌, ◌++◌, ◌<◌, ◌≤◌, length, OnOk, OnErr};
ghost use Rattle.idoc_record.specs.declared.data.TheConstants.{DATA_LEN};
ghost use Rattle.idoc_record.specs.Parts.{with_text};
ghost use Rattle.idoc_record.specs.Control.{IsControlLine};
ghost use Rattle.idoc_record.specs.Data.{IsDataLine};
ghost use Rattle.idoc_record.specs.Digits.{decimal_digits};
ghost use Rattle.idoc_record.specs.Written.{blank_record, addressed, placed, data_line};

use crate::parts::put_padded;
use crate::{Control, ControlField, Data, Place, Span};
use ale_base::OutOfMemory;

/// The places of a data record, by their fields. Source: SAP Library, IDoc interface, data record.
const SEGNAM: Span = Span {
    offset: 0,
    length: 30,
};

const MANDT: Span = Span {
    offset: 30,
    length: 3,
};

const DOCNUM: Span = Span {
    offset: 33,
    length: 16,
};

const SEGNUM: Span = Span {
    offset: 49,
    length: 6,
};

const PSGNUM: Span = Span {
    offset: 55,
    length: 6,
};

const HLEVEL: Span = Span {
    offset: 61,
    length: 2,
};

const SDATA: Span = Span {
    offset: 63,
    length: 1000,
};

/// Appends the 524 bytes of a control record. After an `Err` nothing was appended.
pub fn write_control(control: &Control, into: &mut Vec<u8>) -> Result<(), OutOfMemory>
    ensures written { OnOk result (into.new.items ≡ into.old.items ++ control.now) }
    ensures again { IsControlLine control.now control.now }
    ensures err { OnErr result (into.new.items ≡ into.old.items) }
{
    into.extend_from_slice(control.bytes())?;
    Ok(())
}

/// Appends the 1,063 bytes of a data record, with client and number of the document and the segment's place, in digits
/// with leading zeros. After an `Err` nothing was appended.
pub fn write_data(
    control: &Control,
    place: Place,
    line: &Data,
    into: &mut Vec<u8>,
) -> Result<(), OutOfMemory>
    requires segnum { place.segnum < 1000000 }
    requires parent { place.parent < 1000000 }
    requires level { place.level < 100 }
    ensures written { OnOk result (into.new.items ≡ into.old.items ++ data_line control.now place line.now) }
    ensures whole { length (data_line control.now place line.now) ≡ DATA_LEN }
    ensures again { IsDataLine (data_line control.now place line.now) line.now }
    ensures err { OnErr result (into.new.items ≡ into.old.items) }
{
    into.extend_from_slice(&data_line(control, place, line))?;
    Ok(())
}

/// The bytes of a data record.
fn data_line(control: &Control, place: Place, line: &Data) -> [u8; 1063]
    ensures bytes { result ≡ data_line control.now place line.now }
    ensures whole { length (data_line control.now place line.now) ≡ DATA_LEN }
    ensures again { IsDataLine (data_line control.now place line.now) line.now }
{
    let mut record = blank_record();
    put_at(&mut record, SEGNAM, line.segnam.trimmed());
    put_address(&mut record, control);
    put_place(&mut record, place);
    put_at(&mut record, SDATA, line.sdata.as_slice());
    record
}

/// Writes client and number of the document.
fn put_address(bytes: &mut [u8; 1063], control: &Control)
    ensures { bytes.new ≡ addressed control.now bytes.old }
{
    put_at(bytes, MANDT, control.get(ControlField::Mandt));
    put_at(bytes, DOCNUM, control.get(ControlField::Docnum));
}

/// Writes the place of the segment.
fn put_place(bytes: &mut [u8; 1063], place: Place)
    ensures { bytes.new ≡ placed place bytes.old }
{
    put_at(bytes, SEGNUM, &digits::<6>(place.segnum));
    put_at(bytes, PSGNUM, &digits::<6>(place.parent));
    put_at(bytes, HLEVEL, &digits::<2>(u32::from(place.level)));
}

/// A record of blanks.
#[tactic(auto, unfolding(crate::specs::Written::blank_record))]
fn blank_record() -> [u8; 1063]
    ensures { result ≡ blank_record }
{
    [b' '; 1063]
}

/// Writes a text to its place, and blanks behind it there.
fn put_at(bytes: &mut [u8; 1063], place: Span, text: &[u8])
    requires within { place.offset + place.length ≤ DATA_LEN }
    requires fits { length text.now ≤ place.length }
    ensures { bytes.new ≡ with_text place text.now bytes.old }
{
    let (_, rest) = bytes.split_at_mut(place.offset);
    let (part, _) = rest.split_at_mut(place.length);
    put_padded(part, text);
}

/// The lowest digits of a number.
#[tactic(auto, unfolding(crate::specs::Digits::decimal_digits))]
fn digits<const N: usize>(number: u32) -> [u8; N]
    ensures { result ≡ decimal_digits N number }
{
    let mut digits = [b'0'; N];
    put_digits(&mut digits, number);
    digits
}

/// Fills the slice with the lowest digits of the number, the highest of them first.
#[tactic(auto, unfolding(crate::specs::Digits::decimal_digits))]
fn put_digits(into: &mut [u8], number: u32)
    ensures { into.new ≡ decimal_digits (length into.old) number }
{
    let mut number = number;
    let mut at = into.len();
    while at > 0 {
        at -= 1;
        into[at] = b'0' + (number % 10) as u8;
        number /= 10;
    }
}

//! The data record, and how a line is read as one.

ghost use Rattle.std.specs.Prelude.{◌≡◌, ◌≢◌, ◌≤◌, length, Ok, Err};
ghost use Rattle.ale_base.specs.Blanks.{padded};
ghost use Rattle.idoc_record.specs.declared.data.TheConstants.{DATA_LEN};
ghost use Rattle.idoc_record.specs.Parts.{text_at};
ghost use Rattle.idoc_record.specs.Data.{DataRecord, IsDataLine, data_read, segnam, sdata, is_no_segment};

use crate::RecordFault;
use ale_base::{Fixed, Items, told_length, trimmed};
use std::alloc::{AllocError, Global};
use std::marker::Model;

/// The length of a data record, in bytes.
pub(crate) const DATA_LEN: usize = 1_063;

/// The data record EDI_DD40 of one segment: a SEGNAM that is not blank and does not begin with `EDI_`, and SDATA of at
/// most 1,000 bytes without blanks at their end. Contracts see both texts.
#[derive(PartialEq, Eq, Drop)]
pub struct Data {
    /// The name of the segment.
    pub segnam: Fixed<30>,
    /// The data of the segment.
    pub sdata: Items<u8>,
}

impl Model for Data {
    ghost use Rattle.idoc_record.specs.Data.{DataRecord, IsDataRecord};

    ghost Value = { DataRecord };

    ghost view = { λ d. record { segnam = d.segnam; sdata = d.sdata } };

    ghost invariant = { λ d. IsDataRecord (record { segnam = d.segnam; sdata = d.sdata }) };

    ghost inverse = { λ d. record { segnam = d.segnam; sdata = d.sdata } };
}

impl Data {
    /// The length of the record, in bytes.
    pub const LEN: usize = DATA_LEN;

    /// The greatest length of SEGNAM, in bytes.
    const SEGNAM_LEN: usize = 30;

    /// The offset of SDATA, in bytes.
    const SDATA_OFFSET: usize = 63;
}

impl Clone for Data {
    ghost use Rattle.std.specs.Prelude.{◌≡◌};

    ghost is_clone = { λ data_record copy. copy ≡ data_record };

    fn clone(&self) -> Result<Data, AllocError> {
        Ok(Data {
            segnam: self.segnam,
            sdata: self.sdata.clone()?,
        })
    }
}

/// The data record of a line, which ends where its blanks begin and may be shorter than the record.
///
/// The faults, in this order: `TooLong` where more than 1,063 bytes are left, and `WrongTable` where SEGNAM is blank or
/// begins with `EDI_`.
pub fn read_data(alloc: Global, bytes: &[u8]) -> Result<Data, RecordFault>
    ensures found { (data_record : DataRecord) → result ≡ Ok data_record → IsDataLine bytes.now data_record }
    ensures only { (data_record : DataRecord) → IsDataLine bytes.now data_record
        → result ≢ Err RecordFault.OutOfMemory → result ≡ Ok data_record }
    ensures first_fault { result ≢ Err RecordFault.OutOfMemory → result ≡ data_read bytes.now }
{
    let text = trimmed(bytes);
    if text.len() > Data::LEN {
        return Err(RecordFault::TooLong(told_length(text.len())));
    }
    let segnam = segnam_of(text);
    if is_no_segment(segnam.trimmed()) {
        return Err(RecordFault::WrongTable);
    }
    let sdata = Items::from_slice(alloc, sdata_of(text))?;
    Ok(Data { segnam, sdata })
}

/// The name of the segment in a line without the blanks at its end.
fn segnam_of(text: &[u8]) -> Fixed<30>
    ensures { result ≡ text_at segnam (padded DATA_LEN text.now) }
{
    let name = &text[..Data::SEGNAM_LEN.min(text.len())];
    match Fixed::of(name) {
        Some(segnam) => segnam,
        // The front of the line is no longer than the field.
        None => unreachable!(),
    }
}

/// The data of the segment in such a line, without the blanks at their end.
fn sdata_of(text: &[u8]) -> &[u8]
    requires { length text.now ≤ DATA_LEN }
    ensures { result.now ≡ text_at sdata (padded DATA_LEN text.now) }
{
    if text.len() <= Data::SDATA_OFFSET {
        return &[];
    }
    trimmed(&text[Data::SDATA_OFFSET..])
}

/// Whether a name is blank, or that of another table of the interface.
fn is_no_segment(name: &[u8]) -> bool
    ensures { result ≡ is_no_segment name.now }
{
    name.is_empty() || name.starts_with(b"EDI_")
}

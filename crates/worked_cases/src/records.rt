//! Records by the names of their fields.

use crate::rules;
use case_form::{LineEnd, cut, first_word, put_text};
use idoc_record::{Control, ControlField, Data, Span};
use std::alloc::Global;

/// The fields of the data record, by name. Source: SAP Library, IDoc interface, data record.
const DATA_FIELDS: [(&str, Span); 7] = [
    (
        "SEGNAM",
        Span {
            offset: 0,
            length: 30,
        },
    ),
    (
        "MANDT",
        Span {
            offset: 30,
            length: 3,
        },
    ),
    (
        "DOCNUM",
        Span {
            offset: 33,
            length: 16,
        },
    ),
    (
        "SEGNUM",
        Span {
            offset: 49,
            length: 6,
        },
    ),
    (
        "PSGNUM",
        Span {
            offset: 55,
            length: 6,
        },
    ),
    (
        "HLEVEL",
        Span {
            offset: 61,
            length: 2,
        },
    ),
    (
        "SDATA",
        Span {
            offset: 63,
            length: 1000,
        },
    ),
];

/// The kind of a record.
#[derive(Clone, Copy, Debug)]
enum Kind {
    Control,
    Data,
}

impl Kind {
    /// Where the field of this name stands. None where the record has no such field.
    fn span(self, name: &[u8]) -> Option<Span> {
        match self {
            Kind::Control => {
                let field = ControlField::ALL
                    .iter()
                    .find(|field| field.name().as_bytes() == name)?;
                Some(field.span())
            }
            Kind::Data => {
                let (_, place) = DATA_FIELDS
                    .iter()
                    .find(|(field, _)| field.as_bytes() == name)?;
                Some(*place)
            }
        }
    }
}

/// A control record with these fields, in full width: `NAME=TEXT ..`.
pub(crate) fn control_record(alloc: Global, fields: &[u8]) -> Result<Vec<u8>, LineEnd> {
    let mut record = vec![in alloc; b' '; Control::LEN]?;
    put_field(
        record.as_mut_slice(),
        ControlField::Tabnam.span(),
        b"EDI_DC40",
    );
    put_fields(alloc, Kind::Control, &mut record, fields)?;
    Ok(record)
}

/// A data record with this name and these fields, in full width: `SEGNAM NAME=TEXT ..`.
pub(crate) fn data_record(alloc: Global, text: &[u8]) -> Result<Vec<u8>, LineEnd> {
    let (segnam, fields) = first_word(text);
    let mut record = vec![in alloc; b' '; Data::LEN]?;
    put_field_text(
        alloc,
        &mut record,
        Span {
            offset: 0,
            length: 30,
        },
        segnam,
    )?;
    put_fields(alloc, Kind::Data, &mut record, fields)?;
    Ok(record)
}

/// Writes the fields of a record of this kind.
fn put_fields(
    alloc: Global,
    kind: Kind,
    record: &mut Vec<u8>,
    fields: &[u8],
) -> Result<(), LineEnd> {
    for field in fields
        .split(|byte| *byte == b' ')
        .filter(|field| !field.is_empty())
    {
        let (name, text) = cut(field, b'=').ok_or(rules::NO_SUCH_FIELD)?;
        let place = kind.span(name).ok_or(rules::NO_SUCH_FIELD)?;
        put_field_text(alloc, record, place, text)?;
    }
    Ok(())
}

/// Writes a text of the case file to its place.
fn put_field_text(
    alloc: Global,
    record: &mut Vec<u8>,
    place: Span,
    text: &[u8],
) -> Result<(), LineEnd> {
    let mut bytes = Vec::new(alloc);
    put_text(&mut bytes, text)?;
    if bytes.len() > place.length {
        return Err(rules::FIELD_TOO_LONG.into());
    }
    put_field(record.as_mut_slice(), place, bytes.as_slice());
    Ok(())
}

/// Writes bytes to their place, with blanks behind them.
fn put_field(record: &mut [u8], place: Span, bytes: &[u8]) {
    for byte in record.iter_mut().skip(place.offset).take(place.length) {
        *byte = b' ';
    }
    for (byte, new) in record.iter_mut().skip(place.offset).zip(bytes) {
        *byte = *new;
    }
}

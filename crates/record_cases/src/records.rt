//! Control records and data records, as the cases tell them.

use ale_base::OutOfMemory;
use case_form::{Item, LineEnd, Rule, Text, first_word, number_of, put_text};
use idoc_record::{
    Control, ControlField, Data, Place, RecordFault, read_control, read_data, write_control,
    write_data,
};
use std::alloc::Global;

const NO_RECORD: Rule = Rule("a line that is read is a record");

const NO_PLACE: Rule = Rule("a place is SEGNUM, PARENT and LEVEL, of at most six and two digits");

/// `line`, and in the block `OFFSET TEXT`: the line up to this offset, with blanks where it is shorter, and then the text.
pub(crate) fn made_line(alloc: Global, item: &Item) -> Result<Vec<u8>, LineEnd> {
    let mut line = Vec::new(alloc);
    for part in &item.block {
        let (offset, text) = first_word(part.text.as_slice());
        line.resize(number_of(offset)? as usize, b' ')?;
        put_text(&mut line, text)?;
    }
    Ok(line)
}

/// `control`: the fields of the line's control record that are not blank, a line each.
pub(crate) fn put_control(
    text: &mut Text,
    line: &[u8],
    control: &mut Control,
) -> Result<(), LineEnd> {
    let Ok(read) = read_control(line) else {
        return Err(NO_RECORD.into());
    };
    *control = read;
    Ok(put_fields(text, control)?)
}

fn put_fields(text: &mut Text, control: &Control) -> Result<(), OutOfMemory> {
    for field in ControlField::ALL {
        let held = control.get(field);
        if !held.is_empty() {
            text.put(field.name().as_bytes())?;
            text.put_word(held)?;
            text.end_line()?;
        }
    }
    Ok(())
}

/// `data`: the name and the data of the line's data record, a line each.
pub(crate) fn put_data(alloc: Global, text: &mut Text, line: &[u8]) -> Result<(), LineEnd> {
    let data = data_of(alloc, line)?;
    text.put_line(data.segnam.trimmed())?;
    Ok(text.put_line(data.sdata.as_slice())?)
}

/// The line's data record.
fn data_of(alloc: Global, line: &[u8]) -> Result<Data, LineEnd> {
    match read_data(alloc, line) {
        Ok(data) => Ok(data),
        Err(RecordFault::OutOfMemory) => Err(LineEnd::OutOfMemory),
        Err(_) => Err(NO_RECORD.into()),
    }
}

/// `written_control`: the bytes of the control record that was read last.
pub(crate) fn put_control_bytes(
    alloc: Global,
    text: &mut Text,
    control: &Control,
) -> Result<(), LineEnd> {
    let mut bytes = Vec::new(alloc);
    write_control(control, &mut bytes)?;
    Ok(text.put_line(bytes.as_slice())?)
}

/// `written_data SEGNUM PARENT LEVEL`: the bytes of the line's data record at this place, with client and number of that
/// control record.
pub(crate) fn put_data_bytes(
    alloc: Global,
    text: &mut Text,
    control: &Control,
    line: &[u8],
    rest: &[u8],
) -> Result<(), LineEnd> {
    let place = place_of(rest)?;
    let data = data_of(alloc, line)?;
    if place.segnum >= 1_000_000 || place.parent >= 1_000_000 || place.level >= 100 {
        return Err(NO_PLACE.into());
    }
    let mut bytes = Vec::new(alloc);
    write_data(control, place, &data, &mut bytes)?;
    Ok(text.put_line(bytes.as_slice())?)
}

/// A place, as `SEGNUM PARENT LEVEL`.
fn place_of(text: &[u8]) -> Result<Place, LineEnd> {
    let (segnum, rest) = first_word(text);
    let (parent, level) = first_word(rest);
    Ok(Place {
        segnum: number_of(segnum)?,
        parent: number_of(parent)?,
        level: u8::try_from(number_of(level)?).map_err(|_| NO_PLACE)?,
    })
}

/// `layout`: the fields of the control record in order, each with its name, its offset and its length; and the length of
/// the record.
pub(crate) fn put_layout(text: &mut Text) -> Result<(), OutOfMemory> {
    for field in ControlField::ALL {
        let span = field.span();
        text.put(field.name().as_bytes())?;
        text.put(b" ")?;
        text.put_number(span.offset as u64)?;
        text.put(b" ")?;
        text.put_number(span.length as u64)?;
        text.end_line()?;
    }
    text.put(b"in all ")?;
    text.put_number(Control::LEN as u64)?;
    text.end_line()
}

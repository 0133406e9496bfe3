//! Items that say what there is: the text of a model, and the control record and the data records of a master.

use crate::rules::{NO_RECORD, NO_SUCH_TEXT};
use case_form::{Item, LineEnd, Texts, first_word, put_text};
use idoc_record::{Control, ControlField, Data, RecordFault, read_control, read_data};
use std::alloc::Global;

/// `model NAME`: the text of this name of the folder is that of a model; `model`: the lines of the block are, as they stand.
pub(crate) fn model_text(alloc: Global, texts: &Texts, item: &Item) -> Result<Vec<u8>, LineEnd> {
    if item.rest.is_empty() {
        return block_text(alloc, item);
    }
    match texts.get(item.rest.as_slice()) {
        Some(text) => Ok(Vec::from_slice(alloc, text)?),
        None => Err(NO_SUCH_TEXT.into()),
    }
}

/// The lines of a block, as they stand.
fn block_text(alloc: Global, item: &Item) -> Result<Vec<u8>, LineEnd> {
    let mut text = Vec::new(alloc);
    for line in &item.block {
        text.extend_from_slice(line.text.as_slice())?;
        text.push(b'\n')?;
    }
    Ok(text)
}

/// `control`: each line of the block is `FIELD TEXT`, a field of the control record of the master, in the order of the record.
pub(crate) fn control(alloc: Global, item: &Item) -> Result<Control, LineEnd> {
    let mut line = Vec::from_slice(alloc, b"EDI_DC40")?;
    for field in &item.block {
        let (name, text) = first_word(field.text.as_slice());
        let Some(field) = field_named(name) else {
            return Err(NO_RECORD.into());
        };
        line.resize(field.span().offset, b' ')?;
        line.extend_from_slice(text)?;
    }
    match read_control(line.as_slice()) {
        Ok(control) => Ok(control),
        Err(_) => Err(NO_RECORD.into()),
    }
}

/// The field of a name.
fn field_named(name: &[u8]) -> Option<ControlField> {
    ControlField::ALL
        .iter()
        .find(|field| field.name().as_bytes() == name)
        .copied()
}

/// `records`: each line of the block is `NAME DATA`, a data record of the master.
pub(crate) fn records(alloc: Global, item: &Item) -> Result<Vec<Data>, LineEnd> {
    let mut records = Vec::new(alloc);
    for line in &item.block {
        records.push(record_of(alloc, line.text.as_slice())?)?;
    }
    Ok(records)
}

/// A data record, as `NAME DATA`.
fn record_of(alloc: Global, text: &[u8]) -> Result<Data, LineEnd> {
    let (name, sdata) = first_word(text);
    let mut line = Vec::from_slice(alloc, name)?;
    line.resize(63, b' ')?;
    put_text(&mut line, sdata)?;
    match read_data(alloc, line.as_slice()) {
        Ok(record) => Ok(record),
        Err(RecordFault::OutOfMemory) => Err(LineEnd::OutOfMemory),
        Err(_) => Err(NO_RECORD.into()),
    }
}

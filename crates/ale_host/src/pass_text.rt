//! The text of the documents of a file.

ghost use Rattle.std.specs.Prelude.{◌≡◌, ℕ, ◌≤◌, List, ◌++◌, length, codes, OnOk, IfOk};
ghost use Rattle.idoc_file.specs.declared.documents.TheConstants.{MAX_DOCUMENTS};
ghost use Rattle.ale_host.specs.PassText.{shown, shown_field, shown_unit, shown_address, shown_count, line_of, pass_text};

use ale_base::{OutOfMemory, SystemNo, Tid};
use idoc_file::RawDoc;
use idoc_record::ControlField;
use std::alloc::Global;

/// The text that `pass` prints for the documents of a file.
pub(crate) fn pass_text(alloc: Global, documents: &[RawDoc]) -> Result<Vec<u8>, OutOfMemory>
    requires { length documents.now ≤ MAX_DOCUMENTS }
    ensures { IfOk result (λ text. text.items ≡ pass_text documents.now) }
{
    let mut text = Vec::new(alloc);
    let mut number = 1;
    for document in documents {
        put_line(alloc, &mut text, number, document)?;
        number += 1;
    }
    Ok(text)
}

/// Appends the line of a document.
fn put_line(
    alloc: Global,
    text: &mut Vec<u8>,
    number: u32,
    document: &RawDoc,
) -> Result<(), OutOfMemory>
    requires least { 1 ≤ number }
    requires most { number ≤ 65536 }
    ensures { OnOk result (text.new.items ≡ text.old.items ++ line_of number document.now) }
{
    put_unit(alloc, text, number)?;
    put_address(text, document)?;
    put_count(alloc, text, document)
}

/// Appends the number of a document, and the id of its unit.
fn put_unit(alloc: Global, text: &mut Vec<u8>, number: u32) -> Result<(), OutOfMemory>
    requires least { 1 ≤ number }
    requires most { number ≤ 65536 }
    ensures { OnOk result (text.new.items ≡ text.old.items ++ shown_unit number) }
{
    put_word(text, number.to_string(alloc)?.as_bytes())?;
    put_word(text, Tid::of(first_system(), number).bytes().as_slice())
}

/// Appends sender, receiver and message type.
fn put_address(text: &mut Vec<u8>, document: &RawDoc) -> Result<(), OutOfMemory>
    ensures { OnOk result (text.new.items ≡ text.old.items ++ shown_address document.now) }
{
    put_field(text, document, ControlField::Sndprn)?;
    put_field(text, document, ControlField::Rcvprn)?;
    put_field(text, document, ControlField::Mestyp)
}

/// Appends the number of data records, and ends the line.
fn put_count(alloc: Global, text: &mut Vec<u8>, document: &RawDoc) -> Result<(), OutOfMemory>
    ensures { OnOk result (text.new.items ≡ text.old.items ++ shown_count document.now) }
{
    put(text, document.segments.len().to_string(alloc)?.as_bytes())?;
    put(text, b"\n")
}

/// Appends a field as it is printed, and a blank.
fn put_field(text: &mut Vec<u8>, document: &RawDoc, field: ControlField) -> Result<(), OutOfMemory>
    ensures { OnOk result (text.new.items ≡ text.old.items ++ shown_field document.now field) }
{
    put_word(text, shown(document.control.get(field)))
}

/// A text as it is printed.
fn shown(text: &[u8]) -> &[u8]
    ensures { result.now ≡ shown text.now }
{
    if text.is_empty() { b"-" } else { text }
}

/// Appends a word and a blank.
fn put_word(text: &mut Vec<u8>, word: &[u8]) -> Result<(), OutOfMemory>
    ensures { OnOk result (text.new.items ≡ text.old.items ++ (word.now ++ codes " ")) }
{
    put(text, word)?;
    put(text, b" ")
}

/// Appends these bytes.
pub(crate) fn put(text: &mut Vec<u8>, bytes: &[u8]) -> Result<(), OutOfMemory>
    ensures { OnOk result (text.new.items ≡ text.old.items ++ bytes.now) }
{
    text.extend_from_slice(bytes)?;
    Ok(())
}

/// The system that `pass` works as.
fn first_system() -> SystemNo
    ensures { result ≡ 1 }
{
    SystemNo::of(1).unwrap()
}

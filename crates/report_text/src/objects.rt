//! Lines of objects.

ghost use Rattle.std.specs.Prelude.{◌≡◌, ◌++◌, codes, OnOk};
ghost use Rattle.std.specs.List.{flat_map};
ghost use Rattle.report_text.specs.Listing.{line_of, shown_field, shown_object};

use crate::put::put;
use ale_base::{FieldValue, OutOfMemory};
use status_log::ObjectLine;

/// Appends a line an object.
pub(crate) fn put_objects(text: &mut Vec<u8>, lines: &[ObjectLine]) -> Result<(), OutOfMemory>
    ensures { OnOk result (text.new.items ≡ text.old.items ++ flat_map (λ o. line_of (shown_object o)) lines.now) }
{
    for line in lines {
        put_object(text, line)?;
    }
    Ok(())
}

/// Appends the line of an object.
fn put_object(text: &mut Vec<u8>, line: &ObjectLine) -> Result<(), OutOfMemory>
    ensures { OnOk result (text.new.items ≡ text.old.items ++ line_of (shown_object line.now)) }
{
    put(text, b"  ")?;
    put(text, line.kind.as_slice())?;
    put(text, b" ")?;
    put(text, line.key.as_slice())?;
    put_fields(text, line.fields.as_slice())?;
    put(text, b"\n")
}

/// Appends each field and its value.
fn put_fields(text: &mut Vec<u8>, fields: &[FieldValue]) -> Result<(), OutOfMemory>
    ensures { OnOk result (text.new.items ≡ text.old.items ++ flat_map shown_field fields.now) }
{
    for field in fields {
        put_field(text, field)?;
    }
    Ok(())
}

fn put_field(text: &mut Vec<u8>, field: &FieldValue) -> Result<(), OutOfMemory>
    ensures { OnOk result (text.new.items ≡ text.old.items ++ shown_field field.now) }
{
    put(text, b" ")?;
    put(text, field.field.as_slice())?;
    put(text, b"=")?;
    put(text, field.value.as_slice())
}

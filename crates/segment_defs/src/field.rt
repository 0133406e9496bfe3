//! A field of a segment, and its text.

ghost use Rattle.std.specs.Prelude.{◌≡◌};
ghost use Rattle.ale_base.specs.Blanks.{trimmed};

use ale_base::{Items, OutOfMemory, trimmed};

/// A field of a segment. The rules are told by `is_valid`.
#[derive(PartialEq, Eq, Drop)]
pub struct Field {
    /// The name, from 1 to 30 letters, digits, `_` and `/`.
    pub name: Items<u8>,
    /// The offset in the data of the segment, in bytes from 0.
    pub offset: u16,
    /// The length, in bytes.
    pub length: u16,
}

impl Field {
    ghost use Rattle.std.specs.Prelude.{◌≡◌, ◌≤◌, ◌++◌, length, OnOk, OnErr};
    ghost use Rattle.ale_base.specs.Blanks.{padded};
    ghost use Rattle.segment_defs.specs.Version.{field_text};

    /// The text of the field in the data of a segment, without the blanks at its end. Data that ends before the field
    /// is blank from there on.
    pub fn text<'a>(&self, sdata: &'a [u8]) -> &'a [u8]
        ensures { result.now ≡ field_text sdata.now self.now }
    {
        let from = usize::from(self.offset).min(sdata.len());
        let to = (from + usize::from(self.length)).min(sdata.len());
        trimmed(&sdata[from..to])
    }

    /// Appends a text of the field, and blanks behind it up to the field's length. After an `Err` nothing was appended.
    pub fn put_text(&self, text: &[u8], into: &mut Vec<u8>) -> Result<(), OutOfMemory>
        requires { length text.now ≤ self.now.length }
        ensures ok { OnOk result (into.new.items ≡ into.old.items ++ padded self.now.length text.now) }
        ensures err { OnErr result (into.new.items ≡ into.old.items) }
    {
        let before = into.len();
        into.extend_from_slice(text)?;
        let blanks = usize::from(self.length) - text.len();
        if into.resize(into.len() + blanks, b' ').is_err() {
            into.truncate(before);
            return Err(OutOfMemory);
        }
        Ok(())
    }
}

/// The data of a segment as it is kept: these bytes without the blanks at their end.
pub fn without_blanks(mut bytes: Vec<u8>) -> Items<u8>
    ensures { result ≡ trimmed bytes.items }
{
    let text = trimmed(&bytes).len();
    bytes.truncate(text);
    Items::from_vec(bytes)
}

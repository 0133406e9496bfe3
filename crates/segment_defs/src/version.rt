//! A definition of a segment type, and data as it has them.

ghost use Rattle.std.specs.Prelude.{◌≡◌};

use crate::Field;
use ale_base::{Items, trimmed};

/// A definition of a segment type: the fields that it has from a release on. The rules are told by `is_valid`.
#[derive(PartialEq, Eq, Drop)]
pub struct Version {
    /// The name of the definition.
    pub name: Items<u8>,
    /// The release, by its place from 0 among the releases of the landscape.
    pub release: u8,
    /// All fields, those of earlier definitions first.
    pub fields: Items<Field>,
}

impl Version {
    ghost use Rattle.std.specs.Prelude.{◌≡◌, ◌≤◌};
    ghost use Rattle.segment_defs.specs.Version.{AreFields, width_of, fitted};

    /// How many bytes the fields take together.
    pub fn width(&self) -> usize
        requires { AreFields self.now.fields }
        ensures { result ≡ width_of self.now.fields }
    {
        match self.fields.as_slice().last() {
            None => 0,
            Some(last) => usize::from(last.offset) + usize::from(last.length),
        }
    }

    /// The data of a segment as this definition has it: cut at its width, without the blanks at the end.
    pub fn fitted<'a>(&self, sdata: &'a [u8]) -> &'a [u8]
        requires { AreFields self.now.fields }
        ensures { result.now ≡ fitted self.now sdata.now }
    {
        trimmed(&sdata[..self.width().min(sdata.len())])
    }
}

//! IDoc types, and the entries of segment types in them.

use crate::TypeNo;
use ale_base::Items;

/// An entry of an IDoc type: where a segment type stands in its hierarchy, and how often. The rules are told by
/// `IdocType::is_valid`.
#[derive(Clone, Copy, PartialEq, Eq)]
pub struct TypePlace {
    /// The segment type.
    pub segment: TypeNo,
    /// The place from 0 of the entry above this one. None at the root level.
    pub parent: Option<u16>,
    /// Whether a segment of this type has to occur below each one of its parent.
    pub mandatory: bool,
    /// The least number of them there, if they are mandatory; else 1.
    pub min: u32,
    /// The greatest number of them there.
    pub max: u32,
}

/// A hierarchy of segment types, of which documents are made. The rules are told by `is_valid`.
#[derive(Drop)]
pub struct IdocType {
    /// The name of the IDoc type.
    pub name: Items<u8>,
    /// Its entries in preorder: each behind the one above it, and all that are below one together.
    pub segments: Items<TypePlace>,
}

impl IdocType {
    ghost use Rattle.std.specs.Prelude.{◌≡◌};
    ghost use Rattle.std.specs.Option.{option_copied};
    ghost use Rattle.segment_defs.specs.IdocType.{place_in, entry_of, type_above};

    /// The place from 0 of the entry of a segment type; the number of entries where it has none.
    pub fn place_of(&self, segment: TypeNo) -> usize
        ensures { result ≡ place_in self.now.segments segment }
    {
        for (place, entry) in self.segments.iter().enumerate() {
            if entry.segment == segment {
                return place;
            }
        }
        self.segments.len()
    }

    /// The entry of a segment type. None exactly where it has none.
    pub fn entry(&self, segment: TypeNo) -> Option<&TypePlace>
        ensures { option_copied result ≡ entry_of self.now.segments segment }
    {
        self.segments.get(self.place_of(segment))
    }

    /// The segment type above an entry. None at the root level, and where the parent is no place of the list.
    pub fn type_above(&self, entry: &TypePlace) -> Option<TypeNo>
        ensures { result ≡ type_above self.now.segments entry.now }
    {
        let above = self.segments.get(usize::from(entry.parent?))?;
        Some(above.segment)
    }
}

//! All segment types of a landscape, and what names, releases and fields stand for among them.

ghost use Rattle.std.specs.Prelude.{◌≡◌};
ghost use Rattle.segment_defs.specs.Definitions.{HasVersion, text_of};

use crate::{SegmentType, TypeNo, Version, VersionNo};
use ale_base::{Items, trimmed};

/// All segment types of a landscape.
#[derive(Drop)]
pub struct Definitions {
    /// The segment types. The place of one, from 0, is its number.
    pub types: Items<SegmentType>,
}

impl Definitions {
    ghost use Rattle.std.specs.Prelude.{◌≡◌, ℕ, ◌<◌, ◌↔◌, length, Some, None, slice_get, Contains};
    ghost use Rattle.std.specs.List.{flat_map};
    ghost use Rattle.segment_defs.specs.declared.version.Version.{Version};
    ghost use Rattle.segment_defs.specs.SegmentType.{newest_by, IsNewestBy};
    ghost use Rattle.segment_defs.specs.Definitions.{AreDefinitions, HasVersion, StandsFor, names_of, found_in, version_of, versions_of};

    /// The segment type and the definition that a name stands for: a definition's name for that definition, and a
    /// segment type's name for its newest one. None exactly where neither a type nor a definition has the name.
    pub fn find(&self, name: &[u8]) -> Option<(TypeNo, VersionNo)>
        requires { AreDefinitions self.now }
        ensures found { result ≡ found_in name.now self.now.types }
        ensures stands_for { (segment version : ℕ) →
            (result ≡ Some (segment, version)) ↔ StandsFor self.now name.now segment version }
        ensures none { (result ≡ None) ↔ (Contains (flat_map names_of self.now.types) name.now → ⊥) }
    {
        for (place, segment) in self.types.iter().enumerate() {
            // No name is in two types, so the first that has it is the only one.
            if let Some(version) = segment.named(name) {
                return Some((TypeNo(place as u16), version));
            }
        }
        None
    }

    /// The newest definition of a segment type that is not after a release. None exactly where its first definition is
    /// later.
    pub fn newest_by(&self, segment: TypeNo, release: u8) -> Option<VersionNo>
        requires definitions { AreDefinitions self.now }
        requires exists { segment < length self.now.types }
        ensures newest { result ≡ newest_by release (versions_of self.now segment) }
        ensures found { (place : ℕ) →
            (result ≡ Some place) ↔ IsNewestBy release (versions_of self.now segment) place }
        ensures none { (first : Version) → slice_get (versions_of self.now segment) 0 ≡ Some first →
            (result ≡ None) ↔ (release < first.release) }
    {
        let number = segment.0;
        let mut newest = None;
        for (place, version) in self.types[usize::from(number)].versions.iter().enumerate() {
            if version.release <= release {
                // Releases ascend, so the last one not after it is the newest.
                newest = Some(VersionNo(place as u8));
            }
        }
        newest
    }

    /// A definition of a segment type.
    pub fn version(&self, segment: TypeNo, version: VersionNo) -> &Version
        requires { HasVersion self.now segment version }
        ensures { version_of self.now segment version ≡ Some result.now }
    {
        let number = segment.0;
        let place = version.0;
        &self.types[usize::from(number)].versions[usize::from(place)]
    }
}

/// The text of a field in the data of a segment with this definition, without the blanks at its end. It is empty where
/// the definition does not have the field. A field is named by its place from 0 among those of the newest definition.
pub fn cut<'a>(
    definitions: &Definitions,
    segment: TypeNo,
    version: VersionNo,
    field: u16,
    sdata: &'a [u8],
) -> &'a [u8]
    requires { HasVersion definitions.now segment version }
    ensures { result.now ≡ text_of definitions.now segment version field sdata.now }
{
    match definitions
        .version(segment, version)
        .fields
        .get(usize::from(field))
    {
        None => &[],
        Some(field) => field.text(sdata),
    }
}

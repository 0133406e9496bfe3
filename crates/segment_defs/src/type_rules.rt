//! Whether all segment types together, and IDoc types over them, keep their rules.

ghost use Rattle.std.specs.Prelude.{◌≡◌, ◌≤◌, ◌↔◌, [], false, length, map, nat_eq, slice_get, IsTrue, Contains};
ghost use Rattle.std.specs.List.{AllByRecursion, IsDistinct, flat_map};
ghost use Rattle.std.specs.Option.{ForSome};
ghost use Rattle.ale_base.specs.Text.{is_text};
ghost use Rattle.segment_defs.specs.SegmentType.{IsSegmentType};
ghost use Rattle.segment_defs.specs.Definitions.{names_of};
ghost use Rattle.segment_defs.specs.IdocType.{open_level, path_behind, path_of, IsEntry, IsPreorder, IsRootEntry};

use crate::limits::{MOST_LEVELS, MOST_TIMES, MOST_TYPES};
use crate::rules::is_name;
use crate::{Definitions, IdocType, SegmentType, TypeNo, TypePlace, Version};
use ale_base::Items;

impl Definitions {
    ghost use Rattle.std.specs.Prelude.{◌↔◌, IsTrue};
    ghost use Rattle.segment_defs.specs.Definitions.{AreDefinitions};

    /// Whether the definitions keep all their rules: there are at most 1,000 segment types, each of them valid, and no
    /// name occurs twice among all the types and their definitions.
    pub fn is_valid(&self) -> bool
        ensures { IsTrue result ↔ AreDefinitions self.now }
    {
        let types = self.types.as_slice();
        types.len() <= MOST_TYPES && are_valid_types(types) && types_differ(types)
    }
}

fn are_valid_types(types: &[SegmentType]) -> bool
    ensures { IsTrue result ↔ AllByRecursion IsSegmentType types.now }
{
    types.iter().all(|segment| segment.is_valid())
}

/// Whether no name occurs twice among the segment types and their definitions.
fn types_differ(types: &[SegmentType]) -> bool
    ensures { IsTrue result ↔ IsDistinct is_text (flat_map names_of types.now) }
{
    for (place, segment) in types.iter().enumerate() {
        if !are_its_own(segment, &types[place + 1..]) {
            return false;
        }
    }
    true
}

/// Whether the names of a segment type differ from each other, and from those of the others.
fn are_its_own(segment: &SegmentType, others: &[SegmentType]) -> bool
    ensures { IsTrue result ↔ (IsDistinct is_text (names_of segment.now)
        × AllByRecursion (λ name. AllByRecursion (λ other. is_text name other ≡ false) (flat_map names_of others.now))
        (names_of segment.now)) }
{
    names_differ(segment) && is_apart(segment, others)
}

/// Whether the names of a segment type differ from each other.
fn names_differ(segment: &SegmentType) -> bool
    ensures { IsTrue result ↔ IsDistinct is_text (names_of segment.now) }
{
    let versions = segment.versions.as_slice();
    is_no_version(&segment.name, versions) && versions_differ(versions)
}

/// Whether the names of a segment type differ from those of the others.
fn is_apart(segment: &SegmentType, others: &[SegmentType]) -> bool
    ensures { IsTrue result
        ↔ AllByRecursion (λ name. AllByRecursion (λ other. is_text name other ≡ false) (flat_map names_of others.now))
        (names_of segment.now) }
{
    is_no_type(&segment.name, others) && are_no_types(segment.versions.as_slice(), others)
}

/// Whether no two of the definitions have one name.
fn versions_differ(versions: &[Version]) -> bool
    ensures { IsTrue result ↔ IsDistinct is_text (map (λ version. version.name) versions.now) }
{
    for (place, version) in versions.iter().enumerate() {
        if !is_no_version(&version.name, &versions[place + 1..]) {
            return false;
        }
    }
    true
}

/// Whether none of the definitions has this name.
fn is_no_version(name: &Items<u8>, versions: &[Version]) -> bool
    ensures { IsTrue result
        ↔ AllByRecursion (λ other. is_text name.now other ≡ false) (map (λ version. version.name) versions.now) }
{
    versions.iter().all(|version| *name != version.name)
}

/// Whether none of the segment types and of their definitions has this name.
fn is_no_type(name: &Items<u8>, types: &[SegmentType]) -> bool
    ensures { IsTrue result
        ↔ AllByRecursion (λ other. is_text name.now other ≡ false) (flat_map names_of types.now) }
{
    types.iter().all(|segment| is_not_in(name, segment))
}

/// Whether neither the segment type nor one of its definitions has this name.
fn is_not_in(name: &Items<u8>, segment: &SegmentType) -> bool
    ensures { IsTrue result
        ↔ AllByRecursion (λ other. is_text name.now other ≡ false) (names_of segment.now) }
{
    *name != segment.name && is_no_version(name, segment.versions.as_slice())
}

/// Whether no definition has a name of one of the segment types and of their definitions.
fn are_no_types(versions: &[Version], types: &[SegmentType]) -> bool
    ensures { IsTrue result
        ↔ AllByRecursion (λ name. AllByRecursion (λ other. is_text name other ≡ false) (flat_map names_of types.now))
        (map (λ version. version.name) versions.now) }
{
    versions
        .iter()
        .all(|version| is_no_type(&version.name, types))
}

impl TypePlace {
    ghost use Rattle.std.specs.Prelude.{◌↔◌, IsTrue};
    ghost use Rattle.segment_defs.specs.IdocType.{IsEntry};

    /// Whether the entry is of one of the segment types, with a least number from 1 to its greatest and a greatest of at
    /// most 10,000; the least is 1 where the entry is optional.
    fn is_valid(&self, definitions: &Definitions) -> bool
        ensures { IsTrue result ↔ IsEntry definitions.now self.now }
    {
        let number = self.segment.0;
        usize::from(number) < definitions.types.len()
            && self.min >= 1
            && self.min <= self.max
            && self.max <= MOST_TIMES
            && (self.mandatory || self.min == 1)
    }
}

impl IdocType {
    ghost use Rattle.std.specs.Prelude.{◌↔◌, IsTrue};
    ghost use Rattle.segment_defs.specs.IdocType.{IsIdocType};

    /// Whether the IDoc type keeps all its rules over these definitions: it has a name; its first entry stands at the
    /// root level, is mandatory and occurs once; each entry is of one of the segment types, a different one, with a
    /// least number from 1 to its greatest, of at most 10,000, and 1 as the least where it is optional; the entries
    /// are in preorder, at most 99 levels deep.
    pub fn is_valid(&self, definitions: &Definitions) -> bool
        ensures { IsTrue result ↔ IsIdocType definitions.now self.now }
    {
        let entries = self.segments.as_slice();
        is_name(self.name.as_slice())
            && has_root(entries)
            && are_valid_entries(definitions, entries)
            && entries_differ(entries)
            && are_in_preorder(entries)
    }
}

fn are_valid_entries(definitions: &Definitions, entries: &[TypePlace]) -> bool
    ensures { IsTrue result ↔ AllByRecursion (IsEntry definitions.now) entries.now }
{
    entries.iter().all(|entry| entry.is_valid(definitions))
}

/// Whether the first entry stands at the root level, is mandatory, and occurs once in each document.
fn has_root(entries: &[TypePlace]) -> bool
    ensures { IsTrue result ↔ IsRootEntry (slice_get entries.now 0) }
{
    entries.first().is_some_and(|entry| entry.parent.is_none()
        && entry.mandatory
        && entry.min == 1
        && entry.max == 1)
}

/// Whether no segment type has two of the entries.
fn entries_differ(entries: &[TypePlace]) -> bool
    ensures { IsTrue result ↔ IsDistinct nat_eq (map (λ entry. entry.segment) entries.now) }
{
    for (place, entry) in entries.iter().enumerate() {
        if !has_no_entry(entry.segment, &entries[place + 1..]) {
            return false;
        }
    }
    true
}

/// Whether none of the entries is of this segment type.
fn has_no_entry(segment: TypeNo, entries: &[TypePlace]) -> bool
    ensures { IsTrue result
        ↔ AllByRecursion (λ other. nat_eq segment other ≡ false) (map (λ entry. entry.segment) entries.now) }
{
    entries.iter().all(|entry| segment != entry.segment)
}

/// Whether the parent of each entry is the entry before it or one above that, with at most 99 levels.
fn are_in_preorder(entries: &[TypePlace]) -> bool
    ensures { IsTrue result ↔ IsPreorder 0 [] entries.now }
{
    for (place, entry) in entries.iter().enumerate() {
        if !can_follow(entry.parent, &entries[..place]) {
            return false;
        }
    }
    true
}

/// Whether an entry with this parent can stand behind these entries.
fn can_follow(parent: Option<u16>, entries: &[TypePlace]) -> bool
    requires { IsPreorder 0 [] entries.now }
    ensures { IsTrue result ↔ (ForSome parent (Contains (path_behind 0 [] entries.now))
        × (length (path_of (length entries.now) parent (path_behind 0 [] entries.now)) ≤ MOST_LEVELS)) }
{
    match parent {
        None => true,
        // one more with the entry itself
        Some(parent) => (1..=MOST_LEVELS - 1).contains(&levels_to(usize::from(parent), entries)),
    }
}

/// The level of an open entry, which is the last one or one above that, from 1 at the root level. 0 where the entry is
/// closed, and where there is none at this place.
pub fn levels_to(place: usize, entries: &[TypePlace]) -> usize
    requires { IsPreorder 0 [] entries.now }
    ensures { result ≡ open_level place entries.now }
{
    let mut levels = 0;
    let mut above = entries.len().checked_sub(1);
    while let Some(at) = above {
        if levels > 0 || at == place {
            levels += 1;
        }
        above = entries[at].parent.map(usize::from);
    }
    levels
}

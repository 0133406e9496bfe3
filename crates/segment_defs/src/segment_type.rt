//! A segment type, and what a name stands for in it.

use crate::{Version, VersionNo};
use ale_base::Items;

/// A segment type with its definitions, the oldest first. The rules are told by `is_valid`.
#[derive(Drop)]
pub struct SegmentType {
    /// The name of the type.
    pub name: Items<u8>,
    /// Its definitions, by ascending release.
    pub versions: Items<Version>,
}

impl SegmentType {
    ghost use Rattle.std.specs.Prelude.{◌≡◌};
    ghost use Rattle.segment_defs.specs.SegmentType.{IsSegmentType};
    ghost use Rattle.segment_defs.specs.Definitions.{named_in};

    /// The definition that a name stands for: the newest one for the name of the type. None exactly where neither the
    /// type nor one of its definitions has the name.
    pub fn named(&self, name: &[u8]) -> Option<VersionNo>
        requires { IsSegmentType self.now }
        ensures { result ≡ named_in name.now self.now }
    {
        if self.name.as_slice() == name {
            return Some(VersionNo((self.versions.len() - 1) as u8));
        }
        for (place, version) in self.versions.iter().enumerate() {
            if version.name.as_slice() == name {
                return Some(VersionNo(place as u8));
            }
        }
        None
    }
}

//! The definition of a segment, and its fields.

ghost use Rattle.std.specs.Prelude.{◌≡◌};
ghost use Rattle.std.specs.Option.{option_copied};
ghost use Rattle.segment_defs.specs.Definitions.{AreDefinitions, version_of};
ghost use Rattle.segment_defs.specs.Version.{AreFields};
ghost use Rattle.version_reduce.specs.Texts.{fields_of};

use crate::head::Head;
use segment_defs::{Definitions, Field, TypeNo, Version, VersionNo};

/// A definition of a segment type. None where there is none.
pub(crate) fn version_of(
    definitions: &Definitions,
    segment: TypeNo,
    version: VersionNo,
) -> Option<&Version>
    ensures { option_copied result ≡ version_of definitions.now segment version }
{
    let number = segment.0;
    let place = version.0;
    match definitions.types.get(usize::from(number)) {
        None => None,
        Some(segment) => segment.versions.get(usize::from(place)),
    }
}

/// The fields of the definition of a segment; none where there is no such definition.
pub(crate) fn fields_of<'d>(definitions: &'d Definitions, head: &Head) -> &'d [Field]
    requires { AreDefinitions definitions.now }
    ensures fields { result.now ≡ fields_of definitions.now head.now }
    ensures kept { AreFields result.now }
{
    match version_of(definitions, head.segment, head.version) {
        None => &[],
        Some(version) => version.fields.as_slice(),
    }
}

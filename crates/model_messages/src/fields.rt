//! The fields of segment types by their names.

ghost use Rattle.std.specs.Prelude.{◌≡◌, ◌<◌, ◌≤◌, length};
ghost use Rattle.segment_defs.specs.declared.limits.TheConstants.{MOST_FIELDS};
ghost use Rattle.segment_defs.specs.Definitions.{versions_of, AreDefinitions};
ghost use Rattle.dist_model.specs.Field.{all_fields, first_fields};
ghost use Rattle.model_keys.specs.Fields.{field_named};

use dist_model::{all_fields, field_named};
use segment_defs::{Definitions, Field, TypeNo};

/// The field of this name among all of a segment type.
pub(crate) fn known_field(definitions: &Definitions, segment: TypeNo, name: &[u8]) -> Option<u16>
    requires definitions { AreDefinitions definitions.now }
    requires known { segment < length definitions.now.types }
    ensures { result ≡ field_named (all_fields definitions.now segment) name.now }
{
    field_named(all_fields(definitions, segment), name)
}

/// The field of this name among those that each definition of a segment type has.
pub(crate) fn first_field(definitions: &Definitions, segment: TypeNo, name: &[u8]) -> Option<u16>
    requires { AreDefinitions definitions.now }
    ensures { result ≡ field_named (first_fields (versions_of definitions.now segment)) name.now }
{
    field_named(first_fields(definitions, segment), name)
}

/// The fields that each definition of a segment type has: those of the first one.
fn first_fields(definitions: &Definitions, segment: TypeNo) -> &[Field]
    requires { AreDefinitions definitions.now }
    ensures fields { result.now ≡ first_fields (versions_of definitions.now segment) }
    ensures few { length result.now ≤ MOST_FIELDS }
{
    let number = segment.0;
    match definitions.types.get(usize::from(number)) {
        None => &[],
        Some(segment_type) => match segment_type.versions.get(0) {
            None => &[],
            Some(first) => first.fields.as_slice(),
        },
    }
}

//! The section of the segment types.

ghost use Rattle.std.specs.Prelude.{◌≡◌, ◌≤◌, ◌∷◌, ◌++◌, [], IfOk, length, map};
ghost use Rattle.std.specs.List.{flat_map};
ghost use Rattle.toml.specs.View.{view, table_view, items_view};
ghost use Rattle.dist_model.specs.declared.limits.TheConstants.{MOST_RELEASES};
ghost use Rattle.segment_defs.specs.declared.limits.TheConstants.{MOST_BYTES};
ghost use Rattle.segment_defs.specs.Definitions.{names_of};
ghost use Rattle.segment_defs.specs.Version.{width_of};
ghost use Rattle.model_keys.specs.Finding.{Gives};
ghost use Rattle.model_text.specs.Fields.{field_names};
ghost use Rattle.dist_model.specs.Field.{last_fields};
ghost use Rattle.dist_model.specs.Model.{type_names};
ghost use Rattle.model_text.specs.Segments.{is_later, release_at, segment_of, segments_at, segments_of, version_names, version_of, versions_of};

use crate::fields::fields_of;
use crate::keys::{ADDS, NAME, RELEASE, SEGMENT, SEGMENT_KEYS, TYPE, VERSION, VERSION_KEYS};
use ale_base::{Items, OutOfMemory};
use dist_model::{LONGEST_RELEASE, Names};
use model_keys::{
    Cause, ReadError, any_list_at, at, entry_of, list_or_none_at, new_segment_name_at,
    reference_at, some_list_at, within,
};
use segment_defs::{Field, MOST_TYPES, MOST_VERSIONS, SegmentType, Version};
use std::alloc::Global;
use toml::{Table, Value};

/// The segment types. Their names are in the table from then on.
#[tactic(auto, unfolding(crate::specs::Segments::segments_at))]
pub(crate) fn segments_at(
    alloc: Global,
    releases: &Names,
    types: &mut Names,
    table: &Table,
) -> Result<Items<SegmentType>, ReadError>
    requires none { types.old ≡ [] }
    requires few { length releases.now ≤ MOST_RELEASES }
    ensures given { Gives (λ segments. segments) result (segments_at releases.now (table_view table.now)) }
    ensures named { IfOk result (λ segments. types.new ≡ type_names segments) }
{
    let values = list_or_none_at(alloc, MOST_TYPES, SEGMENT, table)?;
    segments_of(alloc, releases, types, values)
}

fn segments_of(
    alloc: Global,
    releases: &Names,
    types: &mut Names,
    values: &[Value],
) -> Result<Items<SegmentType>, ReadError>
    requires none { types.old ≡ [] }
    requires few { length releases.now ≤ MOST_RELEASES }
    ensures given { Gives (λ segments. segments) result (segments_of releases.now (items_view values.now)) }
    ensures named { IfOk result (λ segments. types.new ≡ type_names segments) }
{
    let mut segments = Items::new(alloc);
    let mut names = Names::new(alloc);
    for (place, value) in values.iter().enumerate() {
        match segment_of(alloc, releases, &mut names, value) {
            Err(error) => return Err(within(alloc, SEGMENT, place, error)),
            Ok(segment) => {
                // It is new among the types, since it is among all names.
                types.add(alloc, segment.name.as_slice())?;
                segments.push(segment)?;
            }
        }
    }
    Ok(segments)
}

/// A segment type. Its name, and those of its definitions, are in the table of all names from then on.
#[tactic(auto, unfolding(crate::specs::Segments::segment_of))]
fn segment_of(
    alloc: Global,
    releases: &Names,
    names: &mut Names,
    value: &Value,
) -> Result<SegmentType, ReadError>
    requires { length releases.now ≤ MOST_RELEASES }
    ensures given { Gives (λ segment. segment) result (segment_of releases.now names.old (view value.now)) }
    ensures named { IfOk result (λ segment. names.new ≡ names.old ++ segment.name ∷ [] ++ version_names segment.versions) }
{
    let table = entry_of(alloc, value, &SEGMENT_KEYS)?;
    let name = new_segment_name_at(alloc, TYPE, names, table)?;
    let values = some_list_at(alloc, MOST_VERSIONS, VERSION, table)?;
    let versions = versions_of(alloc, releases, names, values)?;
    Ok(SegmentType { name, versions })
}

fn versions_of(
    alloc: Global,
    releases: &Names,
    names: &mut Names,
    values: &[Value],
) -> Result<Items<Version>, ReadError>
    requires { length releases.now ≤ MOST_RELEASES }
    ensures given { Gives (λ versions. versions) result (versions_of releases.now names.old (items_view values.now)) }
    ensures named { IfOk result (λ versions. names.new ≡ names.old ++ version_names versions) }
{
    let mut versions = Items::new(alloc);
    let mut fields = Names::new(alloc);
    for (place, value) in values.iter().enumerate() {
        match version_of(
            alloc,
            releases,
            names,
            &mut fields,
            versions.as_slice(),
            value,
        ) {
            Err(error) => return Err(within(alloc, VERSION, place, error)),
            Ok(version) => versions.push(version)?,
        }
    }
    Ok(versions)
}

/// One more definition of a segment type behind some. The names of its fields are in their table from then on.
#[tactic(auto, unfolding(crate::specs::Segments::version_of))]
fn version_of(
    alloc: Global,
    releases: &Names,
    names: &mut Names,
    fields: &mut Names,
    versions: &[Version],
    value: &Value,
) -> Result<Version, ReadError>
    requires few { length releases.now ≤ MOST_RELEASES }
    requires fields { fields.old ≡ field_names (last_fields versions.now) }
    requires narrow { width_of (last_fields versions.now) ≤ MOST_BYTES }
    ensures given { Gives (λ version. version) result
        (version_of releases.now names.old versions.now (view value.now)) }
    ensures named { IfOk result (λ version. names.new ≡ names.old ++ version.name ∷ []) }
    ensures fields { IfOk result (λ version. fields.new ≡ field_names version.fields) }
    ensures narrow { IfOk result (λ version. width_of version.fields ≤ MOST_BYTES) }
{
    let table = entry_of(alloc, value, &VERSION_KEYS)?;
    let name = new_segment_name_at(alloc, NAME, names, table)?;
    let release = release_at(alloc, releases, versions, table)?;
    let values = any_list_at(alloc, ADDS, table)?;
    let earlier = earlier_fields(alloc, versions)?;
    let fields = fields_of(alloc, earlier, fields, values)?;
    Ok(Version {
        name,
        release,
        fields,
    })
}

/// The release of a definition, later than those of the definitions before it.
#[tactic(auto, unfolding(crate::specs::Segments::release_at))]
fn release_at(
    alloc: Global,
    releases: &Names,
    versions: &[Version],
    table: &Table,
) -> Result<u8, ReadError>
    requires { length releases.now ≤ MOST_RELEASES }
    ensures { Gives (λ release. release) result (release_at releases.now versions.now (table_view table.now)) }
{
    let place = reference_at(alloc, LONGEST_RELEASE, RELEASE, releases, table)?;
    if !is_later(place, versions) {
        return Err(ReadError::Found(at(alloc, Cause::Wrong, RELEASE)?));
    }
    Ok(place as u8)
}

/// Whether a release is later than that of the last definition.
fn is_later(release: usize, versions: &[Version]) -> bool
    ensures { result ≡ is_later release versions.now }
{
    match versions.last() {
        None => true,
        Some(last) => usize::from(last.release) < release,
    }
}

/// A copy of the fields of the last definition.
fn earlier_fields(alloc: Global, versions: &[Version]) -> Result<Items<Field>, OutOfMemory>
    ensures { IfOk result (λ fields. fields ≡ last_fields versions.now) }
{
    match versions.last() {
        None => Ok(Items::new(alloc)),
        Some(last) => copy_of(alloc, last.fields.as_slice()),
    }
}

fn copy_of(alloc: Global, fields: &[Field]) -> Result<Items<Field>, OutOfMemory>
    ensures { IfOk result (λ copy. copy ≡ fields.now) }
{
    let mut copy = Items::new(alloc);
    for field in fields {
        copy.push(Field {
            name: Items::from_slice(alloc, field.name.as_slice())?,
            offset: field.offset,
            length: field.length,
        })?;
    }
    Ok(copy)
}

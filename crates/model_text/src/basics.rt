//! What a model stands on: releases, systems, segment types and IDoc types.

ghost use Rattle.std.specs.Prelude.{◌≡◌, ◌≤◌, List, IfOk, length};
ghost use Rattle.toml.specs.View.{table_view};
ghost use Rattle.dist_model.specs.declared.limits.TheConstants.{MOST_RELEASES};
ghost use Rattle.dist_model.specs.declared.system.System.{System};
ghost use Rattle.dist_model.specs.Model.{idoc_type_names, system_names, type_names};
ghost use Rattle.segment_defs.specs.declared.limits.TheConstants.{MOST_TYPES};
ghost use Rattle.model_keys.specs.Finding.{Gives};
ghost use Rattle.model_text.specs.IdocTypes.{idoc_types_at};
ghost use Rattle.model_text.specs.Model.{basics, basics_of, basics_on};
ghost use Rattle.model_text.specs.Releases.{releases_at};
ghost use Rattle.model_text.specs.Rules.{IsNamed};
ghost use Rattle.model_text.specs.Segments.{segments_at};
ghost use Rattle.model_text.specs.Systems.{systems_at};

use crate::idoc_types::idoc_types_at;
use crate::listed::Listed;
use crate::releases::releases_at;
use crate::segments::segments_at;
use crate::systems::systems_at;
use ale_base::Items;
use dist_model::{Names, System};
use model_keys::ReadError;
use segment_defs::{Definitions, IdocType, SegmentType};
use std::alloc::Global;
use toml::Table;

/// Releases, systems, segment types and IDoc types, with tables of their names.
#[derive(Drop)]
pub(crate) struct Basics {
    pub(crate) releases: Items<Items<u8>>,
    pub(crate) release_names: Names,
    pub(crate) systems: Items<System>,
    pub(crate) system_names: Names,
    pub(crate) definitions: Definitions,
    pub(crate) segment_names: Names,
    pub(crate) types: Items<IdocType>,
    pub(crate) type_names: Names,
}

/// The sections on releases, systems, segment types and IDoc types.
#[tactic(auto, unfolding(crate::specs::Model::basics_of))]
pub(crate) fn basics_of(alloc: Global, table: &Table) -> Result<Basics, ReadError>
    ensures { Gives (λ basics. basics) result (basics_of (table_view table.now)) }
{
    let releases = releases_listed(alloc, table)?;
    let systems = systems_listed(alloc, table)?;
    match structure_of(alloc, &releases.names, table) {
        Err(error) => Err(error),
        Ok(structure) => Ok(together(releases, systems, structure)),
    }
}

/// Segment types and IDoc types, with tables of their names.
#[derive(Drop)]
struct Structure {
    segments: Listed<SegmentType>,
    types: Listed<IdocType>,
}

/// The sections on segment types and IDoc types, whatever the systems are.
#[tactic(auto, unfolding(crate::specs::Model::basics_on))]
fn structure_of(alloc: Global, releases: &Names, table: &Table) -> Result<Structure, ReadError>
    requires { length releases.now ≤ MOST_RELEASES }
    ensures given { (systems : List System) → Gives
        (λ structure. basics releases.now systems structure.segments.things structure.types.things) result
        (basics_on releases.now systems (table_view table.now)) }
    ensures named { IfOk result IsNamed }
{
    let segments = segments_listed(alloc, releases, table)?;
    let types = types_listed(alloc, &segments.names, table)?;
    Ok(Structure { segments, types })
}

/// All of them together.
fn together(releases: Listed<Items<u8>>, systems: Listed<System>, structure: Structure) -> Basics
    requires releases { releases.names ≡ releases.things }
    requires systems { systems.names ≡ system_names systems.things }
    requires structure { IsNamed structure }
    ensures { result ≡ basics releases.things systems.things structure.segments.things structure.types.things }
{
    let segments = structure.segments;
    let types = structure.types;
    Basics {
        releases: releases.things,
        release_names: releases.names,
        systems: systems.things,
        system_names: systems.names,
        definitions: Definitions {
            types: segments.things,
        },
        segment_names: segments.names,
        types: types.things,
        type_names: types.names,
    }
}

/// The releases.
fn releases_listed(alloc: Global, table: &Table) -> Result<Listed<Items<u8>>, ReadError>
    ensures given { Gives (λ listed. listed.things) result (releases_at (table_view table.now)) }
    ensures named { IfOk result (λ listed. listed.names ≡ listed.things) }
{
    let mut names = Names::new(alloc);
    let things = releases_at(alloc, &mut names, table)?;
    Ok(Listed { things, names })
}

/// The systems.
fn systems_listed(alloc: Global, table: &Table) -> Result<Listed<System>, ReadError>
    ensures given { Gives (λ listed. listed.things) result (systems_at (table_view table.now)) }
    ensures named { IfOk result (λ listed. listed.names ≡ system_names listed.things) }
{
    let mut names = Names::new(alloc);
    let things = systems_at(alloc, &mut names, table)?;
    Ok(Listed { things, names })
}

/// The segment types.
fn segments_listed(
    alloc: Global,
    releases: &Names,
    table: &Table,
) -> Result<Listed<SegmentType>, ReadError>
    requires { length releases.now ≤ MOST_RELEASES }
    ensures given { Gives (λ listed. listed.things) result (segments_at releases.now (table_view table.now)) }
    ensures named { IfOk result (λ listed. listed.names ≡ type_names listed.things) }
{
    let mut names = Names::new(alloc);
    let things = segments_at(alloc, releases, &mut names, table)?;
    Ok(Listed { things, names })
}

/// The IDoc types over these segment types.
fn types_listed(alloc: Global, types: &Names, table: &Table) -> Result<Listed<IdocType>, ReadError>
    requires { length types.now ≤ MOST_TYPES }
    ensures given { Gives (λ listed. listed.things) result (idoc_types_at types.now (table_view table.now)) }
    ensures named { IfOk result (λ listed. listed.names ≡ idoc_type_names listed.things) }
{
    let mut names = Names::new(alloc);
    let things = idoc_types_at(alloc, types, &mut names, table)?;
    Ok(Listed { things, names })
}

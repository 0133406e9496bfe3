//! The definitions that a receiver has by its release.

ghost use Rattle.std.specs.Prelude.{◌≡◌, false, Contains, IfOk, is_none, List};
ghost use Rattle.segment_defs.specs.declared.idoc_type.TypePlace.{TypePlace};
ghost use Rattle.segment_defs.specs.Definitions.{AreDefinitions, version_of, versions_of};
ghost use Rattle.segment_defs.specs.SegmentType.{newest_by};
ghost use Rattle.dist_model.specs.Outbound.{LeavesWhole, removes};
ghost use Rattle.idoc_tree.specs.Forest.{AllNodes};
ghost use Rattle.idoc_tree.specs.Nodes.{forest_of};
ghost use Rattle.idoc_tree.specs.Spells.{fitted_by};
ghost use Rattle.idoc_reading.specs.Document.{AreEntries, IsOfEntries};
ghost use Rattle.version_reduce.specs.Released.{IsByRelease, IsReleasedFrom, given_version, own_release, released, with_version};

use crate::head::Head;
use crate::texts::version_of;
use crate::walk::{Step, walk};
use ale_base::{Items, OutOfMemory};
use dist_model::{Model, Outbound};
use idoc_tree::Node;
use segment_defs::{Definitions, TypeNo, VersionNo};
use std::alloc::Global;

/// A forest as a receiver of the profile's release has it. A segment whose type has no definition by this release goes,
/// with all below it. Each other gets the newest definition that is neither after the release nor after its own, and its
/// data are cut to it. Source: SAP Library, IDoc interface, versions of segments.
pub fn to_release(
    alloc: Global,
    model: &Model,
    profile: &Outbound,
    forest: Vec<Node>,
) -> Result<Vec<Node>, OutOfMemory>
    requires profile { Contains model.now.outbound profile.now }
    ensures map { IfOk result (λ sent. forest_of sent.items ≡ released model.now profile.now (forest_of forest.items)) }
    ensures by_release { IfOk result (λ sent. AllNodes (IsByRelease model.now.definitions profile.now.release) (forest_of sent.items)) }
    ensures each { IfOk result (λ sent. IsReleasedFrom model.now profile.now (forest_of forest.items) (forest_of sent.items)) }
    // A document by entries that the profile leaves whole stays one, where it has none of a type that is removed.
    ensures of_entries { (entries : List TypePlace) → AreEntries model.now.definitions entries
        → LeavesWhole model.now.definitions profile.now entries
        → AllNodes (λ segment. removes profile.now segment.type ≡ false) (forest_of forest.items)
        → IsOfEntries model.now.definitions entries (forest_of forest.items)
        → IfOk result (λ sent. IsOfEntries model.now.definitions entries (forest_of sent.items)) }
{
    let lists = model.as_lists();
    let step = Release {
        definitions: &lists.definitions,
        release: profile.release,
    };
    let sent = walk(alloc, &step, forest)?;
    Ok(sent)
}

/// Segments get the definitions of a release.
#[derive(Clone, Copy)]
struct Release<'m> {
    definitions: &'m Definitions,
    /// The release, by its place from 0.
    release: u8,
}

impl<'m> Step for Release<'m> {
    ghost use Rattle.std.specs.Prelude.{is_none};
    ghost use Rattle.segment_defs.specs.Definitions.{AreDefinitions, versions_of};
    ghost use Rattle.segment_defs.specs.SegmentType.{newest_by};
    ghost use Rattle.version_reduce.specs.Released.{released_segment};

    ghost IsReady = { λ step. AreDefinitions step.definitions.now };

    ghost goes = { λ step segment. is_none (newest_by step.release (versions_of step.definitions.now segment.type)) };

    ghost change = { λ step segment. released_segment step.definitions.now step.release segment };

    fn apply(&self, alloc: Global, head: Head) -> Result<Option<Head>, OutOfMemory> {
        if newest_by(self.definitions, head.segment, self.release).is_none() {
            return Ok(None);
        }
        match given_version(self.definitions, self.release, &head) {
            None => Ok(Some(head)),
            Some(version) => Ok(Some(with_version(alloc, self.definitions, &head, version)?)),
        }
    }
}

/// The newest definition of a segment type that is not after a release; none where there is no such type.
fn newest_by(definitions: &Definitions, segment: TypeNo, release: u8) -> Option<VersionNo>
    requires { AreDefinitions definitions.now }
    ensures { result ≡ newest_by release (versions_of definitions.now segment) }
{
    let number = segment.0;
    if usize::from(number) >= definitions.types.len() {
        return None;
    }
    definitions.newest_by(segment, release)
}

/// The newest definition of a segment's type that is neither after a release nor after the segment's own definition.
fn given_version(definitions: &Definitions, release: u8, head: &Head) -> Option<VersionNo>
    requires { AreDefinitions definitions.now }
    ensures { result ≡ given_version definitions.now release head.now }
{
    let own = own_release(definitions, head);
    newest_by(definitions, head.segment, release.min(own))
}

/// The release of the definition of a segment; the first where there is no such definition.
fn own_release(definitions: &Definitions, head: &Head) -> u8
    ensures { result ≡ own_release definitions.now head.now }
{
    match version_of(definitions, head.segment, head.version) {
        None => 0,
        Some(version) => version.release,
    }
}

/// A segment with another definition of its type, its data cut to it.
fn with_version(
    alloc: Global,
    definitions: &Definitions,
    head: &Head,
    version: VersionNo,
) -> Result<Head, OutOfMemory>
    requires { AreDefinitions definitions.now }
    ensures { IfOk result (λ given. given ≡ with_version definitions.now head.now version) }
{
    let data = cut_to(definitions, head, version);
    Ok(Head {
        segment: head.segment,
        version,
        sdata: Items::from_slice(alloc, data)?,
    })
}

/// The data of a segment as a definition has them; no data where there is no such definition.
fn cut_to<'h>(definitions: &Definitions, head: &'h Head, version: VersionNo) -> &'h [u8]
    requires { AreDefinitions definitions.now }
    ensures { result.now ≡ fitted_by (version_of definitions.now head.now.type version) head.now.sdata }
{
    match version_of(definitions, head.segment, version) {
        None => &[],
        Some(version) => version.fitted(head.sdata.as_slice()),
    }
}

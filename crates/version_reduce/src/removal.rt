//! The segments that a profile removes.

ghost use Rattle.std.specs.Prelude.{◌≡◌, false, Contains, IfOk, List};
ghost use Rattle.segment_defs.specs.declared.idoc_type.TypePlace.{TypePlace};
ghost use Rattle.idoc_tree.specs.Forest.{AllNodes};
ghost use Rattle.idoc_tree.specs.Nodes.{forest_of};
ghost use Rattle.dist_model.specs.Outbound.{LeavesWhole, removes};
ghost use Rattle.idoc_reading.specs.Document.{AreEntries, IsOfEntries};
ghost use Rattle.version_reduce.specs.Removed.{LosesRemoved, removed};

use crate::head::Head;
use crate::walk::{Step, walk};
use ale_base::OutOfMemory;
use dist_model::{Model, Outbound};
use idoc_tree::Node;
use segment_defs::TypeNo;
use std::alloc::Global;

/// What is left of a forest where the segments of the types that a profile removes go, each with all below it.
pub fn remove_segments(
    alloc: Global,
    model: &Model,
    profile: &Outbound,
    forest: Vec<Node>,
) -> Result<Vec<Node>, OutOfMemory>
    requires profile { Contains model.now.outbound profile.now }
    ensures map { IfOk result (λ left. forest_of left.items ≡ removed profile.now (forest_of forest.items)) }
    ensures gone { IfOk result (λ left.
        AllNodes (λ segment. removes profile.now segment.type ≡ false) (forest_of left.items)) }
    ensures left { IfOk result (λ left. LosesRemoved profile.now (forest_of forest.items) (forest_of left.items)) }
    // A document by entries that the profile leaves whole stays one.
    ensures of_entries { (entries : List TypePlace) → AreEntries model.now.definitions entries
        → LeavesWhole model.now.definitions profile.now entries
        → IsOfEntries model.now.definitions entries (forest_of forest.items)
        → IfOk result (λ left. IsOfEntries model.now.definitions entries (forest_of left.items)) }
{
    let left = walk(alloc, &Removal { profile }, forest)?;
    Ok(left)
}

/// Segments of some types go.
#[derive(Clone, Copy)]
struct Removal<'p> {
    /// The profile that removes them.
    profile: &'p Outbound,
}

impl<'p> Step for Removal<'p> {
    ghost use Rattle.std.specs.Prelude.{⊤};
    ghost use Rattle.dist_model.specs.Outbound.{LeavesWhole, removes};

    ghost IsReady = { λ removal. ⊤ };

    ghost goes = { λ removal segment. removes removal.profile.now segment.type };

    ghost change = { λ removal segment. segment };

    fn apply(&self, alloc: Global, head: Head) -> Result<Option<Head>, OutOfMemory> {
        let _ = alloc;
        if removes(self.profile, head.segment) {
            return Ok(None);
        }
        Ok(Some(head))
    }
}

/// Whether a profile removes a segment type.
fn removes(profile: &Outbound, segment: TypeNo) -> bool
    ensures { result ≡ removes profile.now segment }
{
    profile.remove.iter().any(|other| segment == *other)
}

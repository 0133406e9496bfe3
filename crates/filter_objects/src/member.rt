//! Sets of the nodes of a forest, in memory.

ghost use Rattle.std.specs.Prelude.{◌≡◌, IfOk};
ghost use Rattle.filter_objects.specs.steps.Members.{set_of};

use ale_base::OutOfMemory;
use std::alloc::Global;

/// Whether a node is in a set, and which of those below it are. Where the node is not, none of those counts.
#[derive(Drop)]
pub(crate) struct Member {
    /// It is in the set.
    pub(crate) kept: bool,
    /// Those below it.
    pub(crate) below: Vec<Member>,
}

/// A copy of some members.
pub(crate) fn copied_members(alloc: Global, members: &[Member]) -> Result<Vec<Member>, OutOfMemory>
    ensures { IfOk result (λ copy. set_of copy.items ≡ set_of members.now) }
{
    let mut copy = Vec::new(alloc);
    for member in members {
        let kept = member.kept;
        let below = copied_members(alloc, &member.below)?;
        copy.push(Member { kept, below })?;
    }
    Ok(copy)
}

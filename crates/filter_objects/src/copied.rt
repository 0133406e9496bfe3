//! Copies of the nodes in a set.

ghost use Rattle.std.specs.Prelude.{◌≡◌, IfOk};
ghost use Rattle.idoc_tree.specs.Nodes.{forest_of};
ghost use Rattle.idoc_tree.specs.Parts.{part};
ghost use Rattle.filter_objects.specs.steps.Members.{set_of};

use crate::member::Member;
use ale_base::OutOfMemory;
use idoc_tree::Node;
use std::alloc::Global;

/// A copy of the nodes in a set.
pub(crate) fn copied_part(
    alloc: Global,
    nodes: &[Node],
    set: &[Member],
) -> Result<Vec<Node>, OutOfMemory>
    ensures { IfOk result (λ copy. forest_of copy.items ≡ part (forest_of nodes.now) (set_of set.now)) }
{
    let mut copy = Vec::new(alloc);
    for at in 0..nodes.len().min(set.len()) {
        let node = &nodes[at];
        let member = &set[at];
        if member.kept {
            let children = copied_part(alloc, &node.children, &member.below)?;
            let one = node.with_children(alloc, children)?;
            copy.push(one)?;
        }
    }
    Ok(copy)
}

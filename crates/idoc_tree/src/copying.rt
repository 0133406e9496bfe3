//! Copies of nodes and documents. A copy has its own memory and the forest of what was copied.

ghost use Rattle.std.specs.Prelude.{◌≡◌, IfOk};
ghost use Rattle.idoc_tree.specs.Nodes.{tree_of, forest_of};

use crate::{Doc, Node};
use ale_base::{Items, OutOfMemory};
use std::alloc::{AllocError, Global};

impl Node {
    ghost use Rattle.std.specs.Prelude.{◌≡◌, IfOk};
    ghost use Rattle.idoc_tree.specs.Nodes.{tree_of, forest_of};

    /// A copy of this segment, with these segments below it in place of its own.
    pub fn with_children(&self, alloc: Global, children: Vec<Node>) -> Result<Node, OutOfMemory>
        ensures root { IfOk result (λ node. (tree_of node).root ≡ (tree_of self.now).root) }
        ensures below { IfOk result (λ node. (tree_of node).below ≡ forest_of children.items) }
    {
        Ok(Node {
            segment: self.segment,
            version: self.version,
            sdata: Items::from_slice(alloc, self.sdata.as_slice())?,
            children,
        })
    }
}

/// A copy of some nodes, with all below them.
pub fn copied_nodes(alloc: Global, nodes: &[Node]) -> Result<Vec<Node>, OutOfMemory>
    ensures { IfOk result (λ copy. forest_of copy.items ≡ forest_of nodes.now) }
{
    let mut copy = Vec::new(alloc);
    for node in nodes {
        let children = copied_nodes(alloc, &node.children)?;
        let one = node.with_children(alloc, children)?;
        copy.push(one)?;
    }
    Ok(copy)
}

impl Clone for Node {
    ghost use Rattle.std.specs.Prelude.{◌≡◌};
    ghost use Rattle.idoc_tree.specs.Nodes.{tree_of};

    ghost is_clone = { λ node copy. tree_of copy ≡ tree_of node };

    fn clone(&self) -> Result<Node, AllocError> {
        let alloc = *self.children.allocator();
        match copied_nodes(alloc, &self.children) {
            Err(_) => Err(AllocError),
            Ok(children) => match self.with_children(alloc, children) {
                Err(_) => Err(AllocError),
                Ok(node) => Ok(node),
            },
        }
    }
}

impl Clone for Doc {
    ghost use Rattle.std.specs.Prelude.{◌≡◌};
    ghost use Rattle.idoc_tree.specs.Nodes.{forest_of};

    ghost is_clone = { λ doc copy. (copy.control ≡ doc.control)
        × (forest_of copy.forest.items ≡ forest_of doc.forest.items) };

    fn clone(&self) -> Result<Doc, AllocError> {
        let alloc = *self.forest.allocator();
        let control = self.control.clone()?;
        match copied_nodes(alloc, &self.forest) {
            Err(_) => Err(AllocError),
            Ok(forest) => Ok(Doc { control, forest }),
        }
    }
}

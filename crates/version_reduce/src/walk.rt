//! One walk over the nodes of a document, in which some go and the others change.

ghost use Rattle.std.specs.Prelude.{◌≡◌, IfOk};
ghost use Rattle.idoc_tree.specs.Nodes.{forest_of, tree_of};
ghost use Rattle.version_reduce.specs.steps.Walked.{walked};

use crate::head::Head;
use ale_base::OutOfMemory;
use idoc_tree::Node;
use std::alloc::Global;

/// What a walk does with a segment by itself.
pub(crate) trait Step {
    ghost use Rattle.std.specs.Prelude.{Bool, IfOk};
    ghost use Rattle.idoc_tree.specs.Forest.{Segment};
    ghost use Rattle.version_reduce.specs.steps.Walked.{ComesOf};

    /// What it needs to be applied.
    ghost IsReady: { Self → Type 0 };

    ghost goes: { Self → Segment → Bool };

    ghost change: { Self → Segment → Segment };

    /// The segment as it is sent. None where it goes, with all below it.
    fn apply(&self, alloc: Global, head: Head) -> Result<Option<Head>, OutOfMemory>
        requires { IsReady self.now }
        ensures { IfOk result (ComesOf (goes self.now) (change self.now) head) };
}

/// What comes of some nodes: each that goes takes all below it away, and the others change in their places.
pub(crate) fn walk<S: Step>(
    alloc: Global,
    step: &S,
    nodes: Vec<Node>,
) -> Result<Vec<Node>, OutOfMemory>
    requires { S.IsReady step.now }
    ensures { IfOk result (λ sent. forest_of sent.items ≡ walked (S.goes step.now) (S.change step.now) (forest_of nodes.items)) }
{
    let mut sent = Vec::new(alloc);
    for node in nodes {
        let Node {
            segment,
            version,
            sdata,
            children,
        } = node;
        let head = Head {
            segment,
            version,
            sdata,
        };
        if let Some(head) = step.apply(alloc, head)? {
            let children = walk(alloc, step, children)?;
            let node = joined(head, children);
            sent.push(node)?;
        }
    }
    Ok(sent)
}

/// A node of its two parts.
fn joined(head: Head, children: Vec<Node>) -> Node
    ensures head { (tree_of result).root ≡ head }
    ensures below { (tree_of result).below ≡ forest_of children.items }
{
    let Head {
        segment,
        version,
        sdata,
    } = head;
    Node {
        segment,
        version,
        sdata,
        children,
    }
}

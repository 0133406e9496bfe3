//! What one group keeps: the largest closed set, from the leaves up.

ghost use Rattle.std.specs.Prelude.{◌≡◌, ◌==◌, ◌&&◌, None, Some, IfOk};
ghost use Rattle.std.specs.List.{list_all};
ghost use Rattle.idoc_tree.specs.Forest.{AllNodes, roots, count_of};
ghost use Rattle.idoc_tree.specs.Nodes.{tree_of, forest_of};
ghost use Rattle.idoc_tree.specs.Parts.{part};
ghost use Rattle.filter_objects.specs.FromLeaves.{passes, best, kept, if_enough, is_enough};
ghost use Rattle.filter_objects.specs.steps.Conditions.{HasDefinition, suits_all};
ghost use Rattle.filter_objects.specs.steps.Needs.{needs_at};
ghost use Rattle.filter_objects.specs.steps.Members.{member_of, set_of};

use crate::condition::{Condition, conditions_of, suits_all};
use crate::member::Member;
use crate::needs::Needs;
use ale_base::OutOfMemory;
use dist_model::{Group, Lists};
use idoc_tree::Node;
use segment_defs::{Definitions, TypeNo, TypePlace};
use std::alloc::Global;

/// The set that a group of a model keeps.
pub(crate) fn kept(
    alloc: Global,
    model: &Lists,
    needs: &Needs,
    group: &Group,
    forest: &[Node],
) -> Result<Vec<Member>, OutOfMemory>
    requires { AllNodes (HasDefinition model.now.definitions) (forest_of forest.now) }
    ensures { IfOk result (λ set. set_of set.items
        ≡ kept (needs_at needs.now) (passes model.now group.now) (forest_of forest.now)) }
{
    let conditions = conditions_of(alloc, model, group)?;
    let set = best(alloc, &model.definitions, needs, &conditions, forest)?;
    Ok(if_enough(alloc, needs, forest, set))
}

/// A set, or no node where the document has too few of a mandatory type in it.
fn if_enough(alloc: Global, needs: &Needs, forest: &[Node], set: Vec<Member>) -> Vec<Member>
    ensures { set_of result.items
        ≡ if_enough (list_all (is_enough (part (forest_of forest.now) (set_of set.items))) (needs_at needs.now None))
        (set_of set.items) }
{
    if have_enough(needs.roots.as_slice(), forest, &set) {
        set
    } else {
        Vec::new(alloc)
    }
}

/// Those of some nodes that suit the conditions and have enough below them, from the leaves up.
fn best(
    alloc: Global,
    definitions: &Definitions,
    needs: &Needs,
    conditions: &[Condition],
    nodes: &[Node],
) -> Result<Vec<Member>, OutOfMemory>
    requires { AllNodes (HasDefinition definitions.now) (forest_of nodes.now) }
    ensures { IfOk result (λ set. set_of set.items
        ≡ best (needs_at needs.now) (suits_all definitions.now conditions.now) (forest_of nodes.now)) }
{
    let mut set = Vec::new(alloc);
    for node in nodes {
        let below = best(alloc, definitions, needs, conditions, &node.children)?;
        let kept = is_kept(definitions, needs, conditions, node, &below);
        set.push(Member { kept, below })?;
    }
    Ok(set)
}

/// Whether a node suits the conditions, and has enough of each mandatory type in a set of those below it.
fn is_kept(
    definitions: &Definitions,
    needs: &Needs,
    conditions: &[Condition],
    node: &Node,
    below: &[Member],
) -> bool
    requires { HasDefinition definitions.now (tree_of node.now).root }
    ensures { result ≡ (suits_all definitions.now conditions.now (tree_of node.now).root
        && list_all (is_enough (part (tree_of node.now).below (set_of below.now)))
        (needs_at needs.now (Some (tree_of node.now).root.type))) }
{
    suits_all(definitions, conditions, node)
        && have_enough(needs.below(node.segment), &node.children, below)
}

/// Whether of the type of each of some entries there are enough nodes in a set.
fn have_enough(entries: &[TypePlace], nodes: &[Node], set: &[Member]) -> bool
    ensures { result ≡ list_all (is_enough (part (forest_of nodes.now) (set_of set.now))) entries.now }
{
    for entry in entries {
        if !is_enough(entry, nodes, set) {
            return false;
        }
    }
    true
}

/// Whether of the type of an entry there are enough nodes in a set.
fn is_enough(entry: &TypePlace, nodes: &[Node], set: &[Member]) -> bool
    ensures { result ≡ is_enough (part (forest_of nodes.now) (set_of set.now)) entry.now }
{
    entry.min as usize <= count_of(nodes, set, entry.segment)
}

/// How many nodes of a segment type are in a set.
fn count_of(nodes: &[Node], set: &[Member], segment: TypeNo) -> usize
    ensures { result ≡ count_of segment (roots (part (forest_of nodes.now) (set_of set.now))) }
{
    let mut count = 0;
    for at in 0..nodes.len().min(set.len()) {
        if counts(&nodes[at], &set[at], segment) {
            count += 1;
        }
    }
    count
}

/// Whether a node is in a set and of a segment type.
fn counts(node: &Node, member: &Member, segment: TypeNo) -> bool
    ensures { result ≡ ((member_of member.now).kept && ((tree_of node.now).root.type == segment)) }
{
    member.kept && node.segment == segment
}

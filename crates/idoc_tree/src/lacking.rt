//! The first segment that has too few segments of a mandatory type below it.

ghost use Rattle.std.specs.Prelude.{◌≡◌, ◌+◌, ◌-◌, ◌<◌, ◌^◌, ℕ, List, length, Some, None, MatchOption};
ghost use Rattle.segment_defs.specs.IdocType.{type_above};
ghost use Rattle.idoc_tree.specs.Forest.{preorder, roots, count_of};
ghost use Rattle.idoc_tree.specs.Nodes.{forest_of};
ghost use Rattle.idoc_tree.specs.Valid.{families};
ghost use Rattle.idoc_tree.specs.steps.Lacking.{is_same, is_lacking, lack_of, first_lack};

use crate::Node;
use segment_defs::{IdocType, TypeNo, TypePlace};

/// The first mandatory segment type, in preorder and then in the order of the IDoc type, of which there are too few
/// nodes below one node. `number` counts the nodes gone through; at the end it is raised to the number of this one.
pub(crate) fn first_lack(
    ty: &IdocType,
    above: Option<TypeNo>,
    nodes: &[Node],
    number: &mut usize,
) -> Option<TypeNo>
    requires { number.old + length (preorder (forest_of nodes.now)) < 2 ^ 64 }
    ensures none { result ≡ None
        → (first_lack ty.now.segments (families above (forest_of nodes.now)) ≡ None)
        × (number.new ≡ number.old + length (preorder (forest_of nodes.now))) }
    ensures some { (segment : ℕ) → result ≡ Some segment
        → (place : ℕ) × (number.new ≡ number.old + place)
        × (first_lack ty.now.segments (families above (forest_of nodes.now)) ≡ Some (segment, place)) }
{
    let lack = lack_of(ty, &above, nodes);
    if lack.is_some() {
        return lack;
    }
    for node in nodes {
        *number += 1;
        let lack = first_lack(ty, Some(node.segment), &node.children, number);
        if lack.is_some() {
            return lack;
        }
    }
    None
}

/// The first mandatory segment type below another one, in the order of the IDoc type, of which there are too few nodes.
fn lack_of(ty: &IdocType, above: &Option<TypeNo>, nodes: &[Node]) -> Option<TypeNo>
    ensures { result
        ≡ lack_of ty.now.segments (record { above = above.now; children = roots (forest_of nodes.now) }) }
{
    let entries = ty.segments.as_slice();
    for entry in entries {
        if is_lacking(ty, above, nodes, entry) {
            return Some(entry.segment);
        }
    }
    None
}

/// Whether an entry is mandatory below a segment type and has too few nodes.
fn is_lacking(ty: &IdocType, above: &Option<TypeNo>, nodes: &[Node], entry: &TypePlace) -> bool
    ensures { result
        ≡ is_lacking ty.now.segments (record { above = above.now; children = roots (forest_of nodes.now) }) entry.now }
{
    entry.mandatory
        && is_same(&ty.type_above(entry), above)
        && count_of(nodes, entry.segment) < entry.min as usize
}

/// Whether the two are one segment type, or both none.
fn is_same(segment: &Option<TypeNo>, other: &Option<TypeNo>) -> bool
    ensures { result ≡ is_same segment.now other.now }
{
    match (segment, other) {
        (None, None) => true,
        (Some(segment), Some(other)) => segment == other,
        _ => false,
    }
}

/// How many of some nodes are of a segment type.
fn count_of(nodes: &[Node], segment: TypeNo) -> usize
    ensures { result ≡ count_of segment (roots (forest_of nodes.now)) }
{
    let mut count = 0;
    for node in nodes {
        if node.segment == segment {
            count += 1;
        }
    }
    count
}

//! One record more: where its segment hangs behind those before it, or what is wrong with it.

ghost use Rattle.std.specs.Prelude.{◌≡◌, ◌≢◌, ◌≤◌, ℕ, true, false, List, Some, Ok, Err, IsSome, OnOk, IfOk, nat_le};
ghost use Rattle.std.specs.Option.{option_map};
ghost use Rattle.std.specs.List.{AllByRecursion};
ghost use Rattle.segment_defs.specs.Definitions.{AreDefinitions, HasVersion};
ghost use Rattle.segment_defs.specs.IdocType.{IsIdocType};
ghost use Rattle.idoc_tree.specs.Forest.{no_trees, roots, count_of};
ghost use Rattle.idoc_tree.specs.Nodes.{tree_of, forest_of};
ghost use Rattle.idoc_tree.specs.Spells.{segment_found};
ghost use Rattle.idoc_tree.specs.Valid.{IsOrdered, Fits, families};
ghost use Rattle.idoc_tree.specs.Siblings.{children_of_open, siblings, has_later};
ghost use Rattle.idoc_tree.specs.steps.Growing.{hung_below, hung, AreLast, grown};

use crate::{Node, SyntaxFault};
use ale_base::{Items, OutOfMemory, told_length};
use idoc_record::Data;
use segment_defs::{Definitions, IdocType, TypeNo, VersionNo};
use std::alloc::Global;

/// Hangs the segment of a data record, the one with this number, behind those before it.
pub(crate) fn grow(
    alloc: Global,
    definitions: &Definitions,
    ty: &IdocType,
    forest: &mut Vec<Node>,
    line: &Data,
    number: usize,
) -> Result<(), SyntaxFault>
    requires definitions { AreDefinitions definitions.now }
    requires kept { IsIdocType definitions.now ty.now }
    requires fits { AllByRecursion (Fits ty.now.segments) (families None (forest_of forest.old.items)) }
    ensures ok { OnOk result (grown definitions.now ty.now.segments number line.now (forest_of forest.old.items)
        ≡ Ok (forest_of forest.new.items)) }
    ensures fault { (fault : SyntaxFault) → result ≡ Err fault → fault ≢ SyntaxFault.OutOfMemory
        → grown definitions.now ty.now.segments number line.now (forest_of forest.old.items) ≡ Err fault }
{
    let Some(found) = definitions.find(line.segnam.trimmed()) else {
        return Err(SyntaxFault::UnknownSegment(told_length(number)));
    };
    let (segment, version) = found;
    let Some(entry) = ty.entry(segment) else {
        return Err(SyntaxFault::Misplaced(told_length(number)));
    };
    let above = ty.type_above(entry);
    let Some(among) = siblings(forest, &above) else {
        return Err(SyntaxFault::Misplaced(told_length(number)));
    };
    // Siblings stand in the order of their entries, so one of a later type ends the room for this one.
    if has_later(ty, among, ty.place_of(segment)) {
        return Err(SyntaxFault::Misplaced(told_length(number)));
    }
    if is_full(among, segment, entry.max) {
        return Err(SyntaxFault::TooMany(told_length(number)));
    }
    let node = leaf(alloc, definitions, segment, version, line.sdata.as_slice())?;
    hang(forest, above, node)?;
    Ok(())
}

/// The siblings that the next node would have below the open node of a segment type, or as a root.
fn siblings<'a>(forest: &'a [Node], above: &Option<TypeNo>) -> Option<&'a [Node]>
    ensures { option_map (λ among. roots (forest_of among.now)) result
        ≡ siblings above.now (forest_of forest.now) }
{
    match above {
        None => Some(forest),
        Some(segment) => children_of_open(forest, *segment),
    }
}

/// What is below the open node of a segment type: the last node, or the last below that one, and so on.
fn children_of_open(nodes: &[Node], segment: TypeNo) -> Option<&[Node]>
    ensures { option_map (λ children. roots (forest_of children.now)) result
        ≡ children_of_open segment (forest_of nodes.now) }
{
    let last = nodes.last()?;
    if last.segment == segment {
        return Some(&last.children);
    }
    children_of_open(&last.children, segment)
}

/// Whether one of some nodes in order is of a later type than the one at this place. The last one tells.
fn has_later(ty: &IdocType, among: &[Node], place: usize) -> bool
    requires { IsOrdered ty.now.segments (roots (forest_of among.now)) }
    ensures { result ≡ has_later ty.now.segments place (roots (forest_of among.now)) }
{
    match among.last() {
        None => false,
        Some(last) => place < ty.place_of(last.segment),
    }
}

/// Whether at least `max` of some nodes are of a segment type, of which there are none but at the end.
fn is_full(among: &[Node], segment: TypeNo, max: u32) -> bool
    requires least { 1 ≤ max }
    requires last { AreLast segment (roots (forest_of among.now)) }
    ensures { result ≡ nat_le max (count_of segment (roots (forest_of among.now))) }
{
    // Those of the type are the last ones, so the one that is `max` places from the end tells.
    let max = max as usize;
    max <= among.len() && among[among.len() - max].segment == segment
}

/// The node of a data record, with its data cut to the definition.
fn leaf(
    alloc: Global,
    definitions: &Definitions,
    segment: TypeNo,
    version: VersionNo,
    sdata: &[u8],
) -> Result<Node, OutOfMemory>
    requires definitions { AreDefinitions definitions.now }
    requires exists { HasVersion definitions.now segment version }
    ensures root { IfOk result (λ node.
        (tree_of node).root ≡ segment_found definitions.now sdata.now (segment, version)) }
    ensures bare { IfOk result (λ node. (tree_of node).below ≡ no_trees) }
{
    let definition = definitions.version(segment, version);
    Ok(Node {
        segment,
        version,
        sdata: Items::from_slice(alloc, definition.fitted(sdata))?,
        children: Vec::new(alloc),
    })
}

/// Hangs a node as the last one below the open node of a segment type, or as the last root.
fn hang(forest: &mut Vec<Node>, above: Option<TypeNo>, node: Node) -> Result<(), OutOfMemory>
    requires parent { IsSome (siblings above (forest_of forest.old.items)) }
    requires bare { (tree_of node).below ≡ no_trees }
    ensures { OnOk result (forest_of forest.new.items
        ≡ hung above (tree_of node).root (forest_of forest.old.items)) }
{
    match above {
        None => {
            forest.push(node)?;
            Ok(())
        }
        Some(segment) => hang_below(forest, segment, node),
    }
}

/// Hangs a node as the last one below the open node of a segment type.
fn hang_below(nodes: &mut Vec<Node>, segment: TypeNo, node: Node) -> Result<(), OutOfMemory>
    requires parent { IsSome (children_of_open segment (forest_of nodes.old.items)) }
    requires bare { (tree_of node).below ≡ no_trees }
    ensures { OnOk result (forest_of nodes.new.items
        ≡ hung_below segment (tree_of node).root (forest_of nodes.old.items)) }
{
    let at = nodes.len() - 1;
    let last = &mut nodes[at];
    if last.segment == segment {
        last.children.push(node)?;
        return Ok(());
    }
    hang_below(&mut last.children, segment, node)
}

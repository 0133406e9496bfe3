//! The data records of a document.

ghost use Rattle.std.specs.Prelude.{◌≡◌, ◌++◌, ℕ, List, None, Ok, IfOk, OnOk, map};
ghost use Rattle.segment_defs.specs.declared.idoc_type.TypePlace.{TypePlace};
ghost use Rattle.segment_defs.specs.Definitions.{AreDefinitions};
ghost use Rattle.idoc_tree.specs.Forest.{preorder, AllNodes};
ghost use Rattle.idoc_tree.specs.Nodes.{tree_of, forest_of};
ghost use Rattle.idoc_tree.specs.Spells.{Hangs, Spells};
ghost use Rattle.idoc_tree.specs.Valid.{IsValid};
ghost use Rattle.idoc_tree.specs.Builds.{Builds};
ghost use Rattle.idoc_tree.specs.Lines.{IsNode, IsFitted, line_of, lines_of};

use crate::{Doc, Node};
use ale_base::{Fixed, Items, OutOfMemory};
use idoc_record::Data;
use segment_defs::Definitions;
use std::alloc::Global;

/// The data records of a document: those of its segments in preorder, each with the name of its definition.
pub fn flatten(
    alloc: Global,
    definitions: &Definitions,
    doc: &Doc,
) -> Result<Vec<Data>, OutOfMemory>
    requires definitions { AreDefinitions definitions.now }
    requires nodes { AllNodes (IsNode definitions.now) (forest_of doc.now.forest.items) }
    ensures lines { IfOk result (λ lines.
        lines.items ≡ lines_of definitions.now (forest_of doc.now.forest.items)) }
    // Where the data fit their definitions: by each type by which the document hangs together they spell it again,
    ensures spelled { AllNodes (IsFitted definitions.now) (forest_of doc.now.forest.items)
        → IfOk result (λ lines. (entries : List TypePlace)
        → Hangs entries None (forest_of doc.now.forest.items)
        → Spells definitions.now entries lines.items (forest_of doc.now.forest.items)) }
    // and by each type by which it is valid they build it again.
    ensures again { AllNodes (IsFitted definitions.now) (forest_of doc.now.forest.items)
        → IfOk result (λ lines. (entries : List TypePlace)
        → Hangs entries None (forest_of doc.now.forest.items)
        → IsValid entries (forest_of doc.now.forest.items)
        → Builds definitions.now entries lines.items (Ok (forest_of doc.now.forest.items))) }
{
    let mut lines = Vec::new(alloc);
    push_lines(alloc, definitions, &doc.forest, &mut lines)?;
    Ok(lines)
}

/// Adds the data records of some nodes, with all below them.
fn push_lines(
    alloc: Global,
    definitions: &Definitions,
    nodes: &[Node],
    lines: &mut Vec<Data>,
) -> Result<(), OutOfMemory>
    requires definitions { AreDefinitions definitions.now }
    requires nodes { AllNodes (IsNode definitions.now) (forest_of nodes.now) }
    ensures { OnOk result (lines.new.items ≡ lines.old.items ++ lines_of definitions.now (forest_of nodes.now)) }
{
    for node in nodes {
        lines.push(line_of(alloc, definitions, node)?)?;
        push_lines(alloc, definitions, &node.children, lines)?;
    }
    Ok(())
}

/// The data record of a node.
fn line_of(alloc: Global, definitions: &Definitions, node: &Node) -> Result<Data, OutOfMemory>
    requires definitions { AreDefinitions definitions.now }
    requires node { IsNode definitions.now (tree_of node.now).root }
    ensures { IfOk result (λ line. line ≡ line_of definitions.now (tree_of node.now).root) }
{
    let definition = definitions.version(node.segment, node.version);
    match Fixed::of(definition.name.as_slice()) {
        // The name of a segment type is no longer than its field.
        None => unreachable!(),
        Some(segnam) => Ok(Data {
            segnam,
            sdata: Items::from_slice(alloc, node.sdata.as_slice())?,
        }),
    }
}

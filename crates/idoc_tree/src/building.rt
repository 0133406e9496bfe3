//! The document that data records make, or their first fault.

ghost use Rattle.std.specs.Prelude.{◌≡◌, ◌≢◌, List, Ok, Err, IfOk, Result};
ghost use Rattle.segment_defs.specs.Definitions.{AreDefinitions};
ghost use Rattle.segment_defs.specs.IdocType.{IsIdocType};
ghost use Rattle.idoc_tree.specs.Forest.{Forest, AllNodes};
ghost use Rattle.idoc_tree.specs.Nodes.{forest_of};
ghost use Rattle.idoc_tree.specs.Spells.{Spells};
ghost use Rattle.idoc_tree.specs.Lines.{IsNode, IsFitted};
ghost use Rattle.idoc_tree.specs.Builds.{Builds};
ghost use Rattle.idoc_tree.specs.FromRecords.{built};

use crate::growing::grow;
use crate::lacking::first_lack;
use crate::{Doc, Node, SyntaxFault};
use ale_base::{Items, told_length};
use idoc_record::{Control, Data};
use segment_defs::{Definitions, IdocType};
use std::alloc::Global;

/// The document that data records make by an IDoc type.
///
/// The faults: at the first record where one stands, in this order, `UnknownSegment`, `Misplaced`, `TooMany`; and where
/// none of these stands, `Missing` at the first segment in preorder, the document first, that has too few segments of a
/// mandatory type below it, with the first such type in the order of the IDoc type.
pub fn build(
    alloc: Global,
    definitions: &Definitions,
    ty: &IdocType,
    control: Control,
    lines: &[Data],
) -> Result<Doc, SyntaxFault>
    requires definitions { AreDefinitions definitions.now }
    requires kept { IsIdocType definitions.now ty.now }
    ensures document { IfOk result (λ doc.
        Builds definitions.now ty.now.segments lines.now (Ok (forest_of doc.forest.items))) }
    ensures control { IfOk result (λ doc. doc.control ≡ control) }
    ensures nodes { IfOk result (λ doc. AllNodes (IsNode definitions.now) (forest_of doc.forest.items)) }
    ensures fitted { IfOk result (λ doc. AllNodes (IsFitted definitions.now) (forest_of doc.forest.items)) }
    ensures first_fault { (fault : SyntaxFault) → result ≡ Err fault → fault ≢ SyntaxFault.OutOfMemory
        → Builds definitions.now ty.now.segments lines.now (Err fault) }
    // What is made of the records, as a function: callers may compute with it.
    ensures computed { IfOk result (λ doc.
        built definitions.now ty.now.segments lines.now ≡ Ok (forest_of doc.forest.items)) }
    ensures computed_fault { (fault : SyntaxFault) → result ≡ Err fault → fault ≢ SyntaxFault.OutOfMemory
        → built definitions.now ty.now.segments lines.now ≡ Err fault }

    // Of the records one thing is made at most, and they spell one forest at most.
    ensures one_answer { (first second : Result Forest SyntaxFault)
        → Builds definitions.now ty.now.segments lines.now first
        → Builds definitions.now ty.now.segments lines.now second
        → first ≡ second }
    ensures one_forest { (first second : Forest)
        → Spells definitions.now ty.now.segments lines.now first
        → Spells definitions.now ty.now.segments lines.now second
        → first ≡ second }
{
    let forest = grow_all(alloc, definitions, ty, lines)?;
    Ok(Doc { control, forest })
}

/// The nodes that data records make by an IDoc type.
fn grow_all(
    alloc: Global,
    definitions: &Definitions,
    ty: &IdocType,
    lines: &[Data],
) -> Result<Vec<Node>, SyntaxFault>
    requires definitions { AreDefinitions definitions.now }
    requires kept { IsIdocType definitions.now ty.now }
    ensures nodes { IfOk result (λ nodes. Builds definitions.now ty.now.segments lines.now (Ok (forest_of nodes.items))) }
    ensures first_fault { (fault : SyntaxFault) → result ≡ Err fault → fault ≢ SyntaxFault.OutOfMemory
        → Builds definitions.now ty.now.segments lines.now (Err fault) }
{
    let mut forest = Vec::new(alloc);
    for (index, line) in lines.iter().enumerate() {
        grow(alloc, definitions, ty, &mut forest, line, index + 1)?;
    }
    let mut number = 0;
    if let Some(segment) = first_lack(ty, None, &forest, &mut number) {
        let place = segment.0;
        let name = Items::from_slice(alloc, definitions.types[usize::from(place)].name.as_slice())?;
        return Err(SyntaxFault::Missing(name, told_length(number)));
    }
    Ok(forest)
}

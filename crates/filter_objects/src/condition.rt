//! The conditions of a group, with their values in tables.

ghost use Rattle.std.specs.Prelude.{◌≡◌, IfOk};
ghost use Rattle.segment_defs.specs.Definitions.{text_of};
ghost use Rattle.idoc_tree.specs.Forest.{Segment};
ghost use Rattle.idoc_tree.specs.Nodes.{tree_of};
ghost use Rattle.filter_objects.specs.FromLeaves.{passes};
ghost use Rattle.filter_objects.specs.steps.Conditions.{HasDefinition, HasSame, is_one_of, suits, suits_all};

use ale_base::{Items, OutOfMemory};
use dist_model::{Group, Lists, Names};
use idoc_tree::Node;
use segment_defs::{Definitions, TypeNo, cut};
use std::alloc::Global;

/// A condition: the field of a segment type has one of some values. They are looked up and not walked.
#[derive(Drop)]
pub(crate) struct Condition {
    /// The segment type.
    pub(crate) segment: TypeNo,
    /// The field, by its place from 0 among those of the newest definition.
    pub(crate) field: u16,
    /// The values, each once.
    pub(crate) values: Names,
}

/// The conditions of a group of a model.
pub(crate) fn conditions_of(
    alloc: Global,
    model: &Lists,
    group: &Group,
) -> Result<Vec<Condition>, OutOfMemory>
    ensures { IfOk result (λ conditions. (segment : Segment)
        → suits_all model.now.definitions conditions.items segment ≡ passes model.now group.now segment) }
{
    let mut conditions = Vec::new(alloc);
    for choice in group.choices.as_slice() {
        if let Some(filter) = model.filters.get(usize::from(choice.filter)) {
            let values = table_of(alloc, choice.values.as_slice())?;
            conditions.push(Condition {
                segment: filter.segment,
                field: filter.field,
                values,
            })?;
        }
    }
    Ok(conditions)
}

/// A table of some values.
fn table_of(alloc: Global, values: &[Items<u8>]) -> Result<Names, OutOfMemory>
    ensures { IfOk result (λ table. HasSame table values.now) }
{
    let mut table = Names::new(alloc);
    for value in values {
        table.add(alloc, value.as_slice())?;
    }
    Ok(table)
}

/// Whether a node is of another type, or has one of the values, at each of some conditions.
pub(crate) fn suits_all(definitions: &Definitions, conditions: &[Condition], node: &Node) -> bool
    requires { HasDefinition definitions.now (tree_of node.now).root }
    ensures { result ≡ suits_all definitions.now conditions.now (tree_of node.now).root }
{
    for condition in conditions {
        if !suits(definitions, condition, node) {
            return false;
        }
    }
    true
}

/// Whether a node is of another type than a condition is on, or has one of its values.
fn suits(definitions: &Definitions, condition: &Condition, node: &Node) -> bool
    requires { HasDefinition definitions.now (tree_of node.now).root }
    ensures { result ≡ suits definitions.now (tree_of node.now).root condition.now }
{
    condition.segment != node.segment
        || is_one_of(text_at(definitions, condition, node), &condition.values)
}

/// The text of a condition's field in a node of any type.
fn text_at<'a>(definitions: &Definitions, condition: &Condition, node: &'a Node) -> &'a [u8]
    requires { HasDefinition definitions.now (tree_of node.now).root }
    ensures { result.now ≡ text_of definitions.now (tree_of node.now).root.type
        (tree_of node.now).root.version condition.now.field (tree_of node.now).root.sdata }
{
    let field = condition.field;
    let sdata = node.sdata.as_slice();
    cut(definitions, node.segment, node.version, field, sdata)
}

/// Whether a text is one of the values in a table.
fn is_one_of(text: &[u8], values: &Names) -> bool
    ensures { result ≡ is_one_of text.now values.now }
{
    values.place(text).is_some()
}

//! The names of queues that rules make.

ghost use Rattle.std.specs.Prelude.{◌≡◌, ◌==◌, Some, None, Err, IfOk, OnOk, map, MatchResult, MatchOption};
ghost use Rattle.std.specs.Option.{option_map};
ghost use Rattle.ale_base.specs.declared.queue_name.NameFault.{NameFault};
ghost use Rattle.idoc_tree.specs.Forest.{AllNodes};
ghost use Rattle.idoc_tree.specs.Lines.{IsNode};
ghost use Rattle.idoc_tree.specs.Nodes.{tree_of, forest_of};
ghost use Rattle.unit_core.specs.Queues.{has_name};
ghost use Rattle.outbound_build.specs.QueueNames.{fault_of, first_fault, first_of, named_by, named_once, text_in, with_name};
ghost use Rattle.outbound_build.specs.steps.Naming.{Names};

use crate::BuildFault;
use ale_base::{Items, NameFault, OutOfMemory, QueueName};
use dist_model::{FieldPlace, QueueRule};
use idoc_tree::Node;
use segment_defs::{Definitions, TypeNo, cut};
use std::alloc::Global;

/// The names of queues that some rules make, each once.
pub(crate) fn names_by(
    alloc: Global,
    definitions: &Definitions,
    forest: &[Node],
    rules: &[QueueRule],
) -> Result<Items<QueueName>, BuildFault>
    requires { AllNodes (IsNode definitions.now) (forest_of forest.now) }
    ensures names { IfOk result (λ names. names ≡ named_once (map (named_by definitions.now (forest_of forest.now)) rules.now)) }
    ensures faultless { OnOk result (first_fault (map (named_by definitions.now (forest_of forest.now)) rules.now) ≡ None) }
    ensures first_fault { (fault : NameFault) → result ≡ Err (BuildFault.Name fault)
        → first_fault (map (named_by definitions.now (forest_of forest.now)) rules.now) ≡ Some fault }
{
    let mut names = Items::new(alloc);
    for rule in rules {
        let name = named_by(alloc, definitions, forest, rule)?;
        add_name(&mut names, name.as_slice())?;
    }
    Ok(names)
}

/// The names of queues that the texts of some rules make, each once.
pub(crate) fn text_names(
    alloc: Global,
    rules: &[QueueRule],
) -> Result<Items<QueueName>, OutOfMemory>
    requires { first_fault (map (λ rule. rule.text) rules.now) ≡ None }
    ensures { IfOk result (λ names. names ≡ named_once (map (λ rule. rule.text) rules.now)) }
{
    let mut names = Items::new(alloc);
    for rule in rules {
        match add_name(&mut names, rule.text.as_slice()) {
            Ok(()) => {}
            Err(BuildFault::OutOfMemory) => return Err(OutOfMemory),
            // The rules of a model name queues.
            Err(BuildFault::Name(_)) => unreachable!(),
        }
    }
    Ok(names)
}

/// Adds a name, unless it has no bytes or is there already.
fn add_name(names: &mut Items<QueueName>, name: &[u8]) -> Result<(), BuildFault>
    ensures added { OnOk result (names.new ≡ with_name names.old name.now) }
    ensures faultless { OnOk result (fault_of name.now ≡ None) }
    ensures fault { (fault : NameFault) → result ≡ Err (BuildFault.Name fault) → fault_of name.now ≡ Some fault }
{
    match queue_of(name) {
        Err(fault) => Err(BuildFault::Name(fault)),
        Ok(None) => Ok(()),
        Ok(Some(queue)) => {
            if !has_name(names, queue) {
                names.push(queue)?;
            }
            Ok(())
        }
    }
}

/// The queue of a name. None where the name has no bytes.
#[tactic(auto, using(crate::proofs::NameLemmas::queue_of_name))]
fn queue_of(name: &[u8]) -> Result<Option<QueueName>, NameFault>
    ensures { MatchResult result (Names name.now) (λ fault. fault_of name.now ≡ Some fault) }
{
    if name.is_empty() {
        return Ok(None);
    }
    match QueueName::of(name) {
        Ok(queue) => Ok(Some(queue)),
        Err(fault) => Err(fault),
    }
}

/// Whether a name is among some.
fn has_name(names: &Items<QueueName>, name: QueueName) -> bool
    ensures { result ≡ has_name name names.now }
{
    names.iter().any(|other| *other == name)
}

/// What a rule makes: its text, and behind it that of its field.
fn named_by(
    alloc: Global,
    definitions: &Definitions,
    forest: &[Node],
    rule: &QueueRule,
) -> Result<Vec<u8>, OutOfMemory>
    requires { AllNodes (IsNode definitions.now) (forest_of forest.now) }
    ensures { IfOk result (λ name. name.items ≡ named_by definitions.now (forest_of forest.now) rule.now) }
{
    let mut name = Vec::from_slice(alloc, rule.text.as_slice())?;
    if let Some(place) = &rule.place {
        name.extend_from_slice(text_in(definitions, forest, place))?;
    }
    Ok(name)
}

/// The text of a field in the first node of its type.
fn text_in<'a>(definitions: &Definitions, forest: &'a [Node], place: &FieldPlace) -> &'a [u8]
    requires { AllNodes (IsNode definitions.now) (forest_of forest.now) }
    ensures { result.now ≡ text_in definitions.now (forest_of forest.now) place.now }
{
    match first_of(forest, place.segment) {
        None => &[],
        Some(node) => cut(
            definitions,
            node.segment,
            node.version,
            place.field,
            node.sdata.as_slice(),
        ),
    }
}

/// The first node of a segment type, in preorder.
fn first_of(nodes: &[Node], segment: TypeNo) -> Option<&Node>
    ensures { option_map (λ node. (tree_of node.now).root) result ≡ first_of segment (forest_of nodes.now) }
{
    for node in nodes {
        if is_of(node, segment) {
            return Some(node);
        }
        if let Some(found) = first_of(&node.children, segment) {
            return Some(found);
        }
    }
    None
}

/// Whether a node is of a segment type.
fn is_of(node: &Node, segment: TypeNo) -> bool
    ensures { result ≡ ((tree_of node.now).root.type == segment) }
{
    node.segment == segment
}

//! The queues of a document, by the rules of its profile.

ghost use Rattle.std.specs.Prelude.{◌≡◌, ◌<◌, length, Ok, Err, IfOk};
ghost use Rattle.idoc_tree.specs.Forest.{AllNodes};
ghost use Rattle.idoc_tree.specs.Lines.{IsNode};
ghost use Rattle.idoc_tree.specs.Nodes.{forest_of};
ghost use Rattle.ale_base.specs.declared.queue_name.NameFault.{NameFault};
ghost use Rattle.outbound_build.specs.QueueNames.{queues_by, queues_of};

use crate::BuildFault;
use crate::naming::names_by;
use ale_base::{Items, QueueName};
use dist_model::{Lists, Model, Outbound, RowNo};
use idoc_tree::{Doc, Node};
use std::alloc::Global;

/// The queues that a unit is in.
#[derive(Drop)]
pub struct QueueLists {
    /// Those of its sender.
    pub outq: Items<QueueName>,
    /// Those of its receiver.
    pub inq: Items<QueueName>,
}

/// The queues of a document that a row of the model sends, by the rules of the row's profile. A rule makes its text and
/// behind it the text of its field in the first segment of its type, which is empty where there is no such segment. What
/// is empty names no queue, and a name that comes twice counts once, at its first place.
///
/// `Name` comes with the first fault where a rule makes no name of a queue, outbound rules first. Whether a rule is in
/// mode 4 makes no difference: such a rule has no field.
pub fn queues(alloc: Global, model: &Model, row: RowNo, doc: &Doc) -> Result<QueueLists, BuildFault>
    requires row { row < length model.now.rows }
    requires nodes { AllNodes (IsNode model.now.definitions) (forest_of doc.now.forest.items) }
    ensures queues { IfOk result (λ lists. queues_of model.now row (forest_of doc.now.forest.items) ≡ Ok lists) }
    ensures first_fault { (fault : NameFault) → result ≡ Err (BuildFault.Name fault)
        → queues_of model.now row (forest_of doc.now.forest.items) ≡ Err fault }
{
    let profile = model.outbound(row);
    queues_by(alloc, model.as_lists(), doc.forest.as_slice(), profile)
}

/// The queues of some nodes, by the rules of a profile.
#[tactic(auto, using(crate::proofs::NameLemmas::queues_of_names))]
pub(crate) fn queues_by(
    alloc: Global,
    lists: &Lists,
    forest: &[Node],
    profile: &Outbound,
) -> Result<QueueLists, BuildFault>
    requires { AllNodes (IsNode lists.now.definitions) (forest_of forest.now) }
    ensures queues { IfOk result (λ queues. queues_by lists.now (forest_of forest.now) profile.now ≡ Ok queues) }
    ensures first_fault { (fault : NameFault) → result ≡ Err (BuildFault.Name fault)
        → queues_by lists.now (forest_of forest.now) profile.now ≡ Err fault }
{
    let outq = names_by(alloc, &lists.definitions, forest, profile.outq.as_slice())?;
    let inq = names_by(alloc, &lists.definitions, forest, profile.inq.as_slice())?;
    Ok(QueueLists { outq, inq })
}

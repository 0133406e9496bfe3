//! What the groups of a row keep of a forest.

ghost use Rattle.std.specs.Prelude.{◌≡◌, ◌<◌, ◌⊎◌, List, [], None, IfOk, length, map};
ghost use Rattle.segment_defs.specs.declared.idoc_type.TypePlace.{TypePlace};
ghost use Rattle.idoc_tree.specs.Forest.{Forest, AllNodes, no_trees};
ghost use Rattle.idoc_tree.specs.Lines.{IsNode};
ghost use Rattle.idoc_tree.specs.Nodes.{forest_of};
ghost use Rattle.idoc_tree.specs.Spells.{Hangs};
ghost use Rattle.idoc_tree.specs.Valid.{IsValid};
ghost use Rattle.filter_objects.specs.Passing.{PassesOne, groups_of};
ghost use Rattle.filter_objects.specs.Kept.{IsKeptPart};
ghost use Rattle.filter_objects.specs.FromLeaves.{passes, needs, part_by, united, kept_part};
ghost use Rattle.filter_objects.specs.steps.Conditions.{HasDefinition};
ghost use Rattle.filter_objects.specs.steps.Needs.{needs_at};
ghost use Rattle.filter_objects.specs.steps.Members.{set_of};

use crate::best::kept;
use crate::copied::copied_part;
use crate::member::Member;
use crate::needs::{Needs, needs_of};
use crate::union::union_of;
use ale_base::OutOfMemory;
use dist_model::{Group, Lists, Model, RowNo};
use idoc_tree::{Node, copied_nodes};
use segment_defs::IdocType;
use std::alloc::Global;

/// What a row of a model keeps of a forest, by the IDoc type of the forest: all of it where the row has no group. For one
/// group it is the largest part in which each segment passes the group, and neither the document nor a segment has fewer
/// segments of a mandatory type below it than it must have; nothing where there is no such part. For several groups it is
/// the union of these parts.
///
/// It takes one way through the forest a group. The values of a group are looked up in tables, made once a call.
pub fn keep(
    alloc: Global,
    model: &Model,
    row: RowNo,
    ty: &IdocType,
    forest: &[Node],
) -> Result<Vec<Node>, OutOfMemory>
    requires row { row < length model.now.rows }
    requires nodes { AllNodes (IsNode model.now.definitions) (forest_of forest.now) }
    ensures kept { IfOk result (λ kept. IsKeptPart model.now ty.now.segments (groups_of model.now row)
        (forest_of forest.now) (forest_of kept.items)) }
    // There is one such part, which callers may compute with.
    ensures one { (first second : Forest)
        → IsKeptPart model.now ty.now.segments (groups_of model.now row) (forest_of forest.now) first
        → IsKeptPart model.now ty.now.segments (groups_of model.now row) (forest_of forest.now) second
        → first ≡ second }
    ensures part { IfOk result (λ kept. forest_of kept.items
        ≡ kept_part model.now ty.now.segments (groups_of model.now row) (forest_of forest.now)) }
    // Where there is a group, no segment is kept that all groups refuse.
    ensures passed { ((groups_of model.now row ≡ []) → ⊥)
        → IfOk result (λ kept. AllNodes (PassesOne model.now (groups_of model.now row)) (forest_of kept.items)) }
    // What the forest keeps to, the part does too.
    ensures valid { IsValid ty.now.segments (forest_of forest.now)
        → IfOk result (λ kept. (forest_of kept.items ≡ no_trees) ⊎ IsValid ty.now.segments (forest_of kept.items)) }
    ensures hangs { Hangs ty.now.segments None (forest_of forest.now)
        → IfOk result (λ kept. Hangs ty.now.segments None (forest_of kept.items)) }
    ensures nodes { IfOk result (λ kept. AllNodes (IsNode model.now.definitions) (forest_of kept.items)) }
{
    let lists = model.as_lists();
    let kept = keep_groups(alloc, lists, groups_of(lists, row), ty, forest)?;
    Ok(kept)
}

/// What some groups keep of a forest, whether or not they are those of a row: as `keep`, by the filters and definitions of
/// these lists. A condition on a filter that is not there is met, and a value with blanks at its end is met by nothing.
pub fn keep_groups(
    alloc: Global,
    model: &Lists,
    groups: &[Group],
    ty: &IdocType,
    forest: &[Node],
) -> Result<Vec<Node>, OutOfMemory>
    requires { AllNodes (IsNode model.now.definitions) (forest_of forest.now) }
    ensures kept { IfOk result (λ kept. IsKeptPart model.now ty.now.segments groups.now
        (forest_of forest.now) (forest_of kept.items)) }
    ensures part { IfOk result (λ kept. forest_of kept.items
        ≡ kept_part model.now ty.now.segments groups.now (forest_of forest.now)) }
{
    let kept = part_of(alloc, model, groups, ty, forest)?;
    Ok(kept)
}

/// The groups of a row.
fn groups_of(model: &Lists, row: RowNo) -> &[Group]
    requires { row < length model.now.rows }
    ensures { result.now ≡ groups_of model.now row }
{
    let number = row.0;
    model.rows[usize::from(number)].group.as_slice()
}

/// What some groups keep, as it is found.
fn part_of(
    alloc: Global,
    model: &Lists,
    groups: &[Group],
    ty: &IdocType,
    forest: &[Node],
) -> Result<Vec<Node>, OutOfMemory>
    requires { AllNodes (HasDefinition model.now.definitions) (forest_of forest.now) }
    ensures { IfOk result (λ kept. forest_of kept.items
        ≡ kept_part model.now ty.now.segments groups.now (forest_of forest.now)) }
{
    if groups.is_empty() {
        return copied_nodes(alloc, forest);
    }
    let set = set_of(alloc, model, groups, ty, forest)?;
    copied_part(alloc, forest, &set)
}

/// The nodes that at least one of some groups keeps, by an IDoc type.
fn set_of(
    alloc: Global,
    model: &Lists,
    groups: &[Group],
    ty: &IdocType,
    forest: &[Node],
) -> Result<Vec<Member>, OutOfMemory>
    requires { AllNodes (HasDefinition model.now.definitions) (forest_of forest.now) }
    ensures { IfOk result (λ set. set_of set.items
        ≡ united (needs ty.now.segments) (map (passes model.now) groups.now) (forest_of forest.now)) }
{
    let tables = needs_of(alloc, model.definitions.types.len(), ty)?;
    united(alloc, model, &tables, groups, forest)
}

/// The nodes that at least one of some groups keeps.
fn united(
    alloc: Global,
    model: &Lists,
    needs: &Needs,
    groups: &[Group],
    forest: &[Node],
) -> Result<Vec<Member>, OutOfMemory>
    requires { AllNodes (HasDefinition model.now.definitions) (forest_of forest.now) }
    ensures { IfOk result (λ set. set_of set.items
        ≡ united (needs_at needs.now) (map (passes model.now) groups.now) (forest_of forest.now)) }
{
    let mut set = Vec::new(alloc);
    for group in groups {
        let own = kept(alloc, model, needs, group, forest)?;
        set = union_of(alloc, &set, &own)?;
    }
    Ok(set)
}

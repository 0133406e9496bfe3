//! The union of two sets of nodes.

ghost use Rattle.std.specs.Prelude.{◌≡◌, IfOk, OnOk};
ghost use Rattle.idoc_tree.specs.Parts.{union};
ghost use Rattle.filter_objects.specs.steps.Members.{member_of, set_of, followed, seen_union};

use crate::member::{Member, copied_members};
use ale_base::OutOfMemory;
use std::alloc::Global;

/// The nodes that are in at least one of two sets.
#[cycle(union)]
pub(crate) fn union_of(
    alloc: Global,
    one: &[Member],
    other: &[Member],
) -> Result<Vec<Member>, OutOfMemory>
    ensures { IfOk result (λ all. set_of all.items ≡ union (set_of one.now) (set_of other.now)) }
{
    let mut all = Vec::new(alloc);
    let both = one.len().min(other.len());
    for at in 0..both {
        let member = union_at(alloc, &one[at], &other[at])?;
        all.push(member)?;
    }
    // One of the two has nothing more.
    push_copies(alloc, &one[both..], &mut all)?;
    push_copies(alloc, &other[both..], &mut all)?;
    Ok(all)
}

/// A node in at least one of two sets, with those below it that are.
#[cycle(union)]
fn union_at(alloc: Global, one: &Member, other: &Member) -> Result<Member, OutOfMemory>
    ensures { IfOk result (λ member. member_of member ≡ seen_union (member_of one.now) (member_of other.now)) }
{
    if one.kept && other.kept {
        let below = union_of(alloc, &one.below, &other.below)?;
        return Ok(Member { kept: true, below });
    }
    if one.kept {
        let below = copied_members(alloc, &one.below)?;
        return Ok(Member { kept: true, below });
    }
    if other.kept {
        let below = copied_members(alloc, &other.below)?;
        return Ok(Member { kept: true, below });
    }
    Ok(Member {
        kept: false,
        below: Vec::new(alloc),
    })
}

/// Adds copies of some members.
fn push_copies(alloc: Global, members: &[Member], into: &mut Vec<Member>) -> Result<(), OutOfMemory>
    ensures { OnOk result (set_of into.new.items ≡ followed (set_of into.old.items) (set_of members.now)) }
{
    for member in members {
        let kept = member.kept;
        let below = copied_members(alloc, &member.below)?;
        into.push(Member { kept, below })?;
    }
    Ok(())
}

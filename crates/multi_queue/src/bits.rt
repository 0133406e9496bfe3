//! The tree of bits over the units, in which the first true leaf is found.

ghost use Rattle.std.specs.Prelude.{◌≡◌, ◌<◌, ◌≤◌, ◌+◌, ◌-◌, ◌*◌, ◌/◌, ◌^◌, ℕ, true, false, length, MatchOption};
ghost use Rattle.multi_queue.specs.Bits.{IsTreeBut, bit};

use ale_base::Items;

/// The first true leaf.
pub(crate) fn first(nodes: &Items<bool>, height: u32) -> Option<usize>
    requires tree { IsTreeBut 0 height nodes.now }
    requires fits { 2 * 2 ^ height < 2 ^ 64 }
    ensures { MatchOption result ((i : ℕ) → 2 ^ height ≤ i → bit nodes.now i ≡ false)
        (λ at. (bit nodes.now at ≡ true) × (2 ^ height ≤ at) × ((i : ℕ) → 2 ^ height ≤ i → i < at → bit nodes.now i ≡ false)) }
{
    if !nodes[1] {
        return None;
    }
    let mut at = 1;
    for level in 0..height {
        at *= 2;
        if !nodes[at] {
            at += 1;
        }
    }
    Some(at)
}
/// The nodes above one that was written.
pub(crate) fn settle(nodes: &mut Items<bool>, from: usize, height: u32)
    requires tree { IsTreeBut (from / 2) height nodes.old }
    requires fits { 2 * 2 ^ height < 2 ^ 64 }
    requires within { from < length nodes.old }
    ensures tree { IsTreeBut 0 height nodes.new }
    ensures leaves { (i : ℕ) → 2 ^ height ≤ i → bit nodes.new i ≡ bit nodes.old i }
{
    let mut at = from;
    while at > 1 {
        at /= 2;
        let both = nodes[2 * at] || nodes[2 * at + 1];
        *nodes.at_mut(at) = both;
    }
}

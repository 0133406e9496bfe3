//! Numbers that look random and are the same in each run.

/// Numbers that look random and are the same in each run: those of a linear congruence modulo 2^32, without their lower half.
/// Source of its two constants: Numerical Recipes, quick generators.
#[derive(Clone, Copy)]
pub struct Dice {
    state: u32,
}

impl Dice {
    ghost use Rattle.std.specs.Prelude.{◌≡◌, ◌<◌, ◌≤◌, [], Some, MatchOption};
    ghost use Rattle.std.specs.List.{Contains};

    /// The dice of this seed.
    pub fn of(seed: u32) -> Dice
        ensures { result.state ≡ seed }
    {
        Dice { state: seed }
    }

    /// A number below this one.
    pub fn below(&mut self, count: u32) -> u32
        requires { 1 ≤ count }
        ensures { result < count }
    {
        self.state = self
            .state
            .wrapping_mul(1_664_525)
            .wrapping_add(1_013_904_223);
        (self.state / 65_536) % count
    }

    /// One of some items. None exactly where there is none.
    pub fn pick<'a, T>(&mut self, items: &'a [T]) -> Option<&'a T>
        ensures { MatchOption result (items.now ≡ []) (λ item. Contains items.now item.now) }
    {
        let count = u32::try_from(items.len()).unwrap_or(1).max(1);
        let place = self.below(count);
        items.get(place as usize)
    }
}

//! The trait of the desk that workers take works from.

ghost use Rattle.std.specs.Prelude.{◌≡◌, ◌≤◌, ◌⊎◌, ℕ, IfOk, IfSome, IfNone, OnOk};
ghost use Rattle.ale_base.specs.Tid.{TidOf};

use ale_base::{OutOfMemory, SystemNo, Tid};
use std::alloc::Global;

/// What hands out works, and takes each back when it is to be done. One worker at a time has it, under a lock.
pub trait Desk {
    /// What a worker takes from the desk.
    type Work: Send + Drop;

    /// What a worker prepares for a work, while it does not have the desk.
    type Ready: Send + Drop;

    /// The data that a desk has from its beginning on.
    type Origin: Send;

    // With what the desk began.
    ghost origin: { Self → Self.Origin };

    // With what the desk began that gave the work.
    ghost origin_of: { Self.Work → Self.Origin };

    // The ready is of the work.
    ghost is_of: { Self.Ready → Self.Work → Type 0 };

    // The system and the unit of a work.
    ghost name_of: { Self.Work → ℕ × TidOf };

    // The desk has no work.
    ghost is_idle: { Self → Type 0 };

    // The work was handed out, and is still to be done.
    ghost is_to_do: { Self → Self.Work → Type 0 };

    // The two are one work.
    ghost are_one: { Self.Work → Self.Work → Type 0 };

    // Works were lost between two states of the desk.
    ghost has_lost: { Self → Self → Type 0 };

    // The work was done between two states of the desk, where it was still to be done.
    ghost has_done: { Self → Self.Work → Self → Type 0 };

    // How many works were finished.
    ghost finishes: { Self → ℕ };

    /// Takes a work of this desk. None exactly where the desk is idle. The work is to be done then, and so is each that was before. After an
    /// `Err` the worker has no work.
    fn take(&mut self) -> Result<Option<Self::Work>, OutOfMemory>
        ensures origin { origin self.new ≡ origin self.old }
        ensures work { IfOk result (λ taken. IfSome taken (λ work. origin_of work ≡ origin self.old)) }
        ensures idle { IfOk result (λ taken. IfNone taken (is_idle self.old)) }
        ensures busy { IfOk result (λ taken. IfSome taken (λ work. is_idle self.old → ⊥)) }
        ensures to_do { IfOk result (λ taken. IfSome taken (is_to_do self.new)) }
        ensures others { (other : Self.Work) → is_to_do self.old other → is_to_do self.new other }
        ensures finishes { finishes self.new ≡ finishes self.old };

    /// The system and the unit of a work, as a gate sees them.
    fn name(work: &Self::Work) -> (SystemNo, Tid)
        ensures { result ≡ name_of work.now };

    /// Prepares a work. A worker calls it while it does not have the desk. After an `Err` the work is dropped.
    fn prepare(alloc: Global, work: &Self::Work) -> Result<Self::Ready, OutOfMemory>
        ensures { IfOk result (λ ready. is_of ready work.now) };

    /// Does a work whole, with what was prepared for it, or nothing where it is no longer to be done. Each other work that was to be done
    /// still is, unless works were lost. After an `Err` what was done of it stays.
    fn act(&mut self, work: Self::Work, ready: Self::Ready) -> Result<(), OutOfMemory>
        requires origin { origin_of work ≡ origin self.old }
        requires ready { is_of ready work }
        ensures origin { origin self.new ≡ origin self.old }
        ensures done { OnOk result (has_done self.old work self.new) }
        ensures others { OnOk result ((other : Self.Work) → is_to_do self.old other
            → are_one work other ⊎ (is_to_do self.new other ⊎ has_lost self.old self.new)) }
        ensures finishes { finishes self.old ≤ finishes self.new };

    /// How many works were finished.
    fn finished(&self) -> u64
        ensures { result ≡ finishes self.now };
}

//! The trait of what tells the moment.

ghost use Rattle.std.specs.Prelude.{◌≡◌, ℕ, List, [], ◌∷◌, ◌++◌};

/// What tells the moment. In what unit it counts, and from when on, is up to the caller; a wall clock gives
/// seconds since 1970. It may go back, so no moment says anything of the next one.
pub trait Clock {
    // Whether the implementation tells what it gave. Once it does not, it never does again.
    ghost told: { Self → Type 0 };

    // The moments that it gave so far, the first one first.
    ghost given: { Self → List ℕ };

    /// Gives the moment.
    fn now(&mut self) -> u64
        ensures told { told self.new → told self.old }
        ensures given { told self.new → given self.new ≡ given self.old ++ result ∷ [] };
}

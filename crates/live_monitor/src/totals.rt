//! Three totals, and by how much they rose.

ghost use Rattle.std.specs.Prelude.{◌≡◌, ◌<◌, ◌+◌, ◌^◌, slice_index};
ghost use Rattle.live_monitor.specs.Totals.{AreAtLeast};
ghost use Rattle.live_monitor.specs.Law.{risen};

/// How many units were committed, accepted and executed.
#[derive(Clone, Copy, Debug, PartialEq, Eq)]
pub struct Totals {
    /// Units that were committed.
    pub committed: u64,
    /// Units that were accepted.
    pub accepted: u64,
    /// Units that were executed.
    pub executed: u64,
}

impl Totals {
    /// By how much these rose since the start.
    pub(crate) fn since(&self, start: Totals) -> [u64; 3]
        requires { AreAtLeast self.now start }
        ensures { risen start result ≡ self.now }
    {
        [
            self.committed - start.committed,
            self.accepted - start.accepted,
            self.executed - start.executed,
        ]
    }

    /// These, after a rise.
    pub(crate) fn after(self, words: [u64; 3]) -> Totals
        requires { (self.committed + slice_index words 0 < 2 ^ 64) × (self.accepted + slice_index words 1 < 2 ^ 64) × (self.executed + slice_index words 2 < 2 ^ 64) }
        ensures { result ≡ risen self words }
    {
        Totals {
            committed: self.committed + words[0],
            accepted: self.accepted + words[1],
            executed: self.executed + words[2],
        }
    }
}

//! How much the logs hold.

ghost use Rattle.std.specs.Prelude.{◌≡◌};

use super::Landscape;
use crate::counts::{Counts, Sums};
use ale_base::SystemNo;
use ale_volumes::Volumes;

impl<V: Volumes> Landscape<V> {
    ghost use Rattle.document_state.specs.Meaning.{model_meaning};
    ghost use Rattle.unit_landscape.specs.Counted.{committed_total, received_total, executed_total, AreInOrder};
    ghost use Rattle.landscape.specs.Counted.{held_by, sums_to};

    /// How many units the systems committed, received and executed: each together, those that are down too. It takes no memory, and a time
    /// by the number of the systems alone.
    pub fn counts(&self) -> (u64, u64, u64)
        ensures committed { result.0 ≡ committed_total (model_meaning self.now.world.rules.systems) self.now.world }
        ensures received { result.1 ≡ received_total (model_meaning self.now.world.rules.systems) self.now.world }
        ensures executed { result.2 ≡ executed_total (model_meaning self.now.world.rules.systems) self.now.world }
        ensures order { AreInOrder (model_meaning self.now.world.rules.systems) self.now.world }
    {
        self.units.counts()
    }

    /// How much the logs of all systems hold, of those that are down too. It goes through each log once; no command asks for it.
    pub fn held(&self) -> Counts
        ensures { result ≡ held_by self.now.world }
    {
        let sums = self.sums();
        let (units, received, executed) = self.counts();
        Counts {
            masters: sums.masters,
            units,
            received,
            executed,
            ended: sums.ended,
        }
    }

    /// What is counted by a walk through all logs.
    #[tactic(auto, unfolding(crate::specs::Counted::sums_to))]
    fn sums(&self) -> Sums
        ensures { result ≡ sums_to self.now.world SystemNo.MAX }
    {
        let mut all = Sums::none();
        for number in 0..SystemNo::MAX {
            let Some(system) = SystemNo::of(number + 1) else {
                // Each number from 1 to 16 is that of a system.
                unreachable!()
            };
            all = all.with(Sums::of_log(self.units.log(system)));
        }
        all
    }
}

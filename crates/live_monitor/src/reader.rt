//! Those who read totals.

ghost use Rattle.std.specs.Prelude.{◌≡◌, IfOk};
ghost use Rattle.live_monitor.specs.Totals.{AreInOrder, AreAtLeast, larger};

use crate::cell::{Place, compare, join, load, tell};
use crate::monitor::Monitor;
use crate::totals::Totals;
use ale_base::OutOfMemory;
use std::marker::Model;
use std::sync::{Arc, Wait};

/// Reads the totals that the writer of its start stores. It takes no lock of the writer's, and may be in any thread.
#[derive(Drop)]
pub struct Reader {
    monitor: Arc<Monitor>,
    place: Place,
}

impl Model for Reader {
    ghost use Rattle.std.specs.Prelude.{◌≡◌};
    ghost use Rattle.std.specs.Arc.{arc_value};
    ghost use Rattle.crossbeam_utils.specs.Seq.{cell_view};
    ghost use Rattle.live_monitor.specs.Monitor.{Reading};
    ghost use Rattle.live_monitor.specs.Law.{reader};

    ghost Value = { Reading };

    ghost view = { λ r. record {
      source = record { cell = r.place.table_id; start = (arc_value r.monitor).start };
      seen = (cell_view r.place).seen;
    } };

    ghost invariant = { λ r. (r.place.table_id ≡ (arc_value r.monitor).cell.table.shared.table_id)
        × (cell_view r.place ≡ reader (arc_value r.monitor).start (cell_view r.place).seen) };
}

impl Reader {
    ghost use Rattle.std.specs.Prelude.{◌≡◌};
    ghost use Rattle.std.specs.Arc.{arc_value};
    ghost use Rattle.crossbeam_utils.specs.Seq.{cell_view, IsSamePass};
    ghost use Rattle.live_monitor.specs.Law.{reader, writer};

    /// A reader that has seen so much.
    pub(crate) fn of(monitor: Arc<Monitor>, place: Place) -> Reader
        requires cell { place.table_id ≡ (arc_value monitor).cell.table.shared.table_id }
        requires view { cell_view place ≡ reader (arc_value monitor).start (cell_view place).seen }
        ensures source { result.source ≡ record { cell = place.table_id; start = (arc_value monitor).start } }
        ensures seen { result.seen ≡ (cell_view place).seen }
    {
        Reader { monitor, place }
    }

    /// Is told what the writer stored last, by the writer's pass. It has seen just that afterwards.
    pub(crate) fn catch_up<R: Wait>(&mut self, rt: &R, place: &mut Place)
        requires cell { place.old.table_id ≡ self.old.source.cell }
        requires view { cell_view place.old ≡ writer self.old.source.start (cell_view place.old).seen }
        ensures writer { IsSamePass place.old place.new × (cell_view place.new ≡ cell_view place.old) }
        ensures source { self.new.source ≡ self.old.source }
        ensures seen { self.new.seen ≡ (cell_view place.old).seen }
    {
        compare(rt, &self.monitor.cell, place, &mut self.place);
        let part = tell(&self.monitor.cell, place);
        join(&self.monitor.cell, &mut self.place, part);
    }

    /// Reads totals. They are in order, and each is at least what this reader had seen.
    pub fn read<R: Wait>(&mut self, rt: &R) -> Totals
        ensures order { AreInOrder result }
        ensures at_least { AreAtLeast result self.old.seen }
        ensures seen { self.new.seen ≡ result }
        ensures source { self.new.source ≡ self.old.source }
    {
        let words = load(rt, &self.monitor.cell, &mut self.place);
        self.monitor.start.after(words)
    }

    /// Another reader, for another thread, which has seen what this one has. `OutOfMemory` comes where a request for memory was refused.
    pub fn split<R: Wait>(&mut self, _rt: &R) -> Result<Reader, OutOfMemory>
        ensures other { IfOk result (λ other. other ≡ self.old) }
        ensures same { self.new ≡ self.old }
    {
        let monitor = Arc::try_clone(&self.monitor)?;
        let place = tell(&self.monitor.cell, &mut self.place);
        Ok(Reader::of(monitor, place))
    }

    /// Takes in what another reader of the same start has seen: of each of the totals the larger one.
    pub fn join<R: Wait>(&mut self, _rt: &R, other: Reader)
        requires source { other.source ≡ self.old.source }
        ensures seen { self.new.seen ≡ larger self.old.seen other.seen }
        ensures source { self.new.source ≡ self.old.source }
    {
        let Reader { monitor: _, place } = other;
        join(&self.monitor.cell, &mut self.place, place);
    }
}

//! The one who stores totals.

ghost use Rattle.std.specs.Prelude.{◌≡◌, IfOk, OnOk, OnErr};
ghost use Rattle.live_monitor.specs.Totals.{AreInOrder, AreAtLeast};

use crate::cell::{Place, store};
use crate::monitor::Monitor;
use crate::reader::Reader;
use crate::totals::Totals;
use ale_base::OutOfMemory;
use std::marker::Model;
use std::sync::{Arc, Wait};

/// Stores totals for the readers of its start. There is one for each start.
#[derive(Drop)]
pub struct Writer {
    monitor: Arc<Monitor>,
    place: Place,
    last: Totals,
}

impl Model for Writer {
    ghost use Rattle.std.specs.Prelude.{◌≡◌};
    ghost use Rattle.std.specs.Arc.{arc_value};
    ghost use Rattle.crossbeam_utils.specs.Seq.{cell_view};
    ghost use Rattle.live_monitor.specs.Totals.{AreInOrder, AreAtLeast};
    ghost use Rattle.live_monitor.specs.Monitor.{Writing};
    ghost use Rattle.live_monitor.specs.Law.{writer};

    ghost Value = { Writing };

    ghost view = { λ w. record {
      source = record { cell = w.place.table_id; start = (arc_value w.monitor).start };
      last = w.last;
    } };

    ghost invariant = { λ w. (w.place.table_id ≡ (arc_value w.monitor).cell.table.shared.table_id)
        × (cell_view w.place ≡ writer (arc_value w.monitor).start w.last)
        × AreInOrder w.last × AreAtLeast w.last (arc_value w.monitor).start };
}

impl Writer {
    ghost use Rattle.std.specs.Prelude.{◌≡◌};
    ghost use Rattle.std.specs.Arc.{arc_value};
    ghost use Rattle.crossbeam_utils.specs.Seq.{cell_view};
    ghost use Rattle.live_monitor.specs.Law.{writer};

    /// A writer of a cell that has just started.
    pub(crate) fn of(monitor: Arc<Monitor>, place: Place) -> Writer
        requires cell { place.table_id ≡ (arc_value monitor).cell.table.shared.table_id }
        requires view { cell_view place ≡ writer (arc_value monitor).start (arc_value monitor).start }
        requires order { AreInOrder (arc_value monitor).start }
        ensures source { result.source ≡ record { cell = place.table_id; start = (arc_value monitor).start } }
        ensures last { result.last ≡ (arc_value monitor).start }
    {
        let last = monitor.start;
        Writer {
            monitor,
            place,
            last,
        }
    }

    /// Stores totals that are in order, each at least what was stored last.
    pub fn store<R: Wait>(&mut self, rt: &R, totals: Totals)
        requires order { AreInOrder totals }
        requires rises { AreAtLeast totals self.old.last }
        ensures source { self.new.source ≡ self.old.source }
        ensures last { self.new.last ≡ totals }
    {
        let words = totals.since(self.monitor.start);
        store(rt, &self.monitor.cell, &mut self.place, words);
        self.last = totals;
    }

    /// The totals that were stored last, or those of the start.
    pub fn last(&self) -> Totals
        ensures last { result ≡ self.now.last }
        ensures order { AreInOrder result }
    {
        self.last
    }

    /// Tells a reader of this writer's start exactly what was stored last. It has seen just that afterwards. A pass of this cell takes no
    /// memory, so no `OutOfMemory` comes, by design and by no clause.
    pub fn tell<R: Wait>(&mut self, rt: &R, reader: &mut Reader) -> Result<Totals, OutOfMemory>
        requires source { reader.old.source ≡ self.old.source }
        ensures told { IfOk result (λ totals. totals ≡ self.old.last) }
        ensures seen { OnOk result (reader.new.seen ≡ self.old.last) }
        ensures refused { OnErr result (reader.new.seen ≡ reader.old.seen) }
        ensures source { reader.new.source ≡ reader.old.source }
        ensures same { self.new ≡ self.old }
    {
        reader.catch_up(rt, &mut self.place);
        Ok(self.last)
    }
}

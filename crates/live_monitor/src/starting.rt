//! A writer and its first reader.

ghost use Rattle.std.specs.Prelude.{◌≡◌, IfOk};
ghost use Rattle.live_monitor.specs.Totals.{AreInOrder};

use crate::cell::{new_cell, open};
use crate::monitor::Monitor;
use crate::reader::Reader;
use crate::totals::Totals;
use crate::writer::Writer;
use ale_base::OutOfMemory;
use std::alloc::Global;
use std::marker::Brand;
use std::sync::Arc;

/// Starts with totals that are in order: the writer has stored them, and the reader has seen them. `OutOfMemory` comes where a request for
/// memory was refused.
pub fn start(alloc: Global, totals: Totals) -> Result<(Writer, Reader), OutOfMemory>
    requires { AreInOrder totals }
    ensures last { IfOk result (λ both. both.0.last ≡ totals) }
    ensures seen { IfOk result (λ both. both.1.seen ≡ totals) }
    ensures source { IfOk result (λ both. both.1.source ≡ both.0.source) }
{
    let (cell, place) = new_cell(alloc)?;
    let mut place = place;
    let first = open::<Brand>(&cell, &mut place, totals);
    let monitor = Arc::new(
        alloc,
        Monitor {
            cell,
            start: totals,
        },
    )?;
    let reader = Reader::of(Arc::try_clone(&monitor)?, first);
    Ok((Writer::of(monitor, place), reader))
}

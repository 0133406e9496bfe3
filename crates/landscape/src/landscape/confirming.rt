//! The units that are done and not ended, whose confirmation has not come back yet.

ghost use Rattle.std.specs.Prelude.{◌≡◌};

use super::Landscape;
use crate::ids::ids_of;
use ale_base::{Items, OutOfMemory, SystemNo, Tid};
use ale_volumes::Volumes;

impl<V: Volumes> Landscape<V> {
    ghost use Rattle.std.specs.Prelude.{◌&&◌, IfOk};
    ghost use Rattle.std.specs.List.{IsDistinct};
    ghost use Rattle.ale_base.specs.Tid.{is_tid};
    ghost use Rattle.system_tables.specs.OfLog.{is_unconfirmed};
    ghost use Rattle.trfc_protocol.specs.Worlds.{is_up, log_of};
    ghost use Rattle.landscape.specs.Shown.{AreUnconfirmedAt};

    /// The ids of a system's units that are done and not ended, each once; none where the system is down. It takes the time of the ids.
    pub fn unconfirmed(&self, system: SystemNo) -> Result<Items<Tid>, OutOfMemory>
        ensures unconfirmed { IfOk result (AreUnconfirmedAt self.now.world system) }
        ensures apart { IfOk result (IsDistinct is_tid) }
    {
        let Some(tables) = self.shown_by(system) else {
            return Ok(Items::new(self.alloc));
        };
        let numbers = tables.unconfirmed().numbers();
        let tids = ids_of(self.alloc, numbers)?;
        Ok(tids)
    }

    /// Whether the unit of this id is done and not ended, where its sender is up; false where the sender is down. It takes a time as the
    /// logarithm of the number of such units.
    pub fn is_unconfirmed(&self, tid: Tid) -> bool
        ensures { result ≡ (is_up self.now.world tid.system && is_unconfirmed tid (log_of self.now.world tid.system)) }
    {
        match self.shown_by(tid.system()) {
            None => false,
            Some(tables) => tables.is_unconfirmed(tid),
        }
    }
}

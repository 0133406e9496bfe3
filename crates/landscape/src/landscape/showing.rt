//! What an operator is shown of a system.

ghost use Rattle.std.specs.Prelude.{◌≡◌};

use super::Landscape;
use ale_base::SystemNo;
use ale_volumes::Volumes;
use document_state::DocumentTables;
use listings::{listing, system_of};
use status_log::{Listing, Refusal, Show};
use system_tables::SystemTables;

impl<V: Volumes> Landscape<V> {
    ghost use Rattle.std.specs.Prelude.{IfOk};
    ghost use Rattle.std.specs.Option.{option_copied};
    ghost use Rattle.listings.specs.Listings.{HasPlaces};
    ghost use Rattle.landscape.specs.Shown.{AreShownBy, ShownAs};

    /// What an operator is shown of a system: its documents, one of its outbound documents, what became of a document, its units, its queues
    /// or its objects. It takes the time of what is listed: of units a time as the logarithm of their number for each, of queues that of all
    /// that were ever used.
    ///
    /// `N2` comes exactly where the system is down; `N3` else exactly where a document is asked for that is not there; and no other but want
    /// of memory. The places of segments fit their data records, as who prints them asks.
    pub fn show(&self, show: &Show) -> Result<Listing, Refusal>
        ensures shown { ShownAs self.now show.now result }
        ensures placed { IfOk result HasPlaces }
    {
        let system = system_of(show);
        match self.shown_by(system) {
            None => Err(Refusal::N2),
            Some(tables) => listing(self.alloc, tables, self.units.moments(system), show),
        }
    }

    /// The tables by which a system is shown. None exactly where it is down.
    pub(super) fn shown_by(&self, system: SystemNo) -> Option<&SystemTables<DocumentTables>>
        ensures { AreShownBy self.now.world system (option_copied result) }
    {
        self.units.tables(system)
    }
}

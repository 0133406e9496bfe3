//! Why a landscape was not opened.

ghost use Rattle.std.specs.Prelude.{◌≡◌};
ghost use Rattle.landscape.specs.steps.Opening.{why_begun, why_opened};

use ale_base::SystemNo;
use log_reading::BadRecord;
use once_check::Breach;
use unit_landscape::{BeginEnd, OpenFault};

/// Why the volumes of systems hold no logs of a landscape.
#[derive(Clone, Copy)]
pub enum Refused {
    /// The volume of a system holds no log.
    Damaged {
        /// The system.
        system: SystemNo,
        /// The place of the open gate that begins no record, counted from 0.
        place: u64,
    },
    /// The volume of a system holds a log, and a record of it is no entry.
    Unread {
        /// The system.
        system: SystemNo,
        /// The number of the first such record, counted from 1.
        number: u64,
    },
    /// A record of the log of a system is that of another system or model, or may not follow those before it.
    Bad {
        /// The system.
        system: SystemNo,
        /// The first such record, and what is wrong with it.
        bad: BadRecord,
    },
    /// The logs of all systems do not keep the exactly-once law: the first record that breaks it.
    Breach(Breach),
}

/// Why a landscape was not opened.
#[derive(Clone, Copy)]
pub enum OpenWhy {
    /// A call on a volume failed.
    Volume,
    /// The volumes hold no logs of a landscape of this model.
    Refused(Refused),
    /// A request for memory was refused.
    OutOfMemory,
}

/// A landscape that was not opened: why, and the volumes.
#[derive(Drop)]
pub struct OpenEnd<V> {
    /// Why.
    pub why: OpenWhy,
    /// The volumes.
    pub vols: V,
}

/// Why no landscape is opened, by why the volume of a system was not.
pub(crate) fn why_opened(system: SystemNo, fault: OpenFault) -> OpenWhy
    ensures { result ≡ why_opened system fault }
{
    match fault {
        OpenFault::Volume => OpenWhy::Volume,
        OpenFault::Damaged(place) => OpenWhy::Refused(Refused::Damaged { system, place }),
        OpenFault::Unread(number) => OpenWhy::Refused(Refused::Unread { system, number }),
        OpenFault::OutOfMemory => OpenWhy::OutOfMemory,
    }
}

/// Why no landscape is opened, by why a system did not begin.
pub(crate) fn why_begun(end: BeginEnd) -> OpenWhy
    ensures { result ≡ why_begun end }
{
    match end {
        BeginEnd::Volume => OpenWhy::Volume,
        BeginEnd::OutOfMemory => OpenWhy::OutOfMemory,
    }
}

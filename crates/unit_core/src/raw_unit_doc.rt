//! A document of a unit.

use crate::Shared;
use ale_base::Items;
use idoc_record::{Control, ControlField, Data};
use std::alloc::AllocError;

/// A document as a unit carries it: its control record, and the data records of its segments in order.
#[derive(PartialEq, Eq, Drop)]
pub struct RawUnitDoc {
    /// The control record, which copies of the document share.
    pub control: Shared<Control>,
    /// The segments, in order.
    pub segments: Items<Data>,
}

impl RawUnitDoc {
    ghost use Rattle.std.specs.Prelude.{◌≡◌};
    ghost use Rattle.idoc_record.specs.Control.{field_of};

    /// The text of a field of its control record, without the blanks at its end.
    pub fn text(&self, field: ControlField) -> &[u8]
        ensures { result.now ≡ field_of self.now.control field }
    {
        self.control.get(field)
    }
}

impl Clone for RawUnitDoc {
    ghost use Rattle.std.specs.Prelude.{◌≡◌};

    ghost is_clone = { λ document copy. copy ≡ document };

    fn clone(&self) -> Result<RawUnitDoc, AllocError> {
        Ok(RawUnitDoc {
            control: self.control.clone()?,
            segments: self.segments.clone()?,
        })
    }
}

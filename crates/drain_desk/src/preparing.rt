//! What becomes of the documents of a unit is prepared.

ghost use Rattle.std.specs.Prelude.{◌≡◌, IfOk};
ghost use Rattle.std.specs.Arc.{arc_value};
ghost use Rattle.inbound_post.specs.Prepared.{prepared};

use crate::work::Basis;
use ale_base::OutOfMemory;
use inbound_post::{Prepared, prepare};
use std::alloc::Global;

/// What becomes of the documents of a unit under the model of its receiver.
pub(crate) fn prepared_from(alloc: Global, basis: &Basis) -> Result<Prepared, OutOfMemory>
    ensures { IfOk result (λ made. made ≡ prepared (arc_value basis.now.model) basis.now.unit.receiver basis.now.unit) }
{
    prepare(alloc, &basis.model, basis.unit.receiver, &basis.unit)
}

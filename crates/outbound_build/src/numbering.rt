//! Units get their numbers.

ghost use Rattle.std.specs.Prelude.{◌≡◌, ◌≤◌, ◌+◌, suc, length, IfOk};
ghost use Rattle.outbound_build.specs.Added.{numbered, unit_of};

use crate::OutUnit;
use crate::parcel::Parcel;
use ale_base::{Items, OutOfMemory, SystemNo, Tid};
use std::alloc::Global;
use unit_core::AleUnit;

/// The units of a system, numbered on where so many are before them.
pub(crate) fn numbered(
    alloc: Global,
    system: SystemNo,
    before: u32,
    parcels: Items<Parcel>,
) -> Result<Items<OutUnit>, OutOfMemory>
    requires { before + length parcels ≤ 65536 }
    ensures { IfOk result (λ units. units ≡ numbered system (suc before) parcels) }
{
    let mut units = Items::new(alloc);
    let mut number = before;
    for parcel in parcels.into_vec() {
        number += 1;
        units.push(unit_of(system, number, parcel))?;
    }
    Ok(units)
}

/// A unit with its number.
fn unit_of(system: SystemNo, number: u32, parcel: Parcel) -> OutUnit
    requires least { 1 ≤ number }
    requires most { number ≤ 65536 }
    ensures { result ≡ unit_of system number parcel }
{
    let Parcel {
        receiver,
        function,
        queues,
        numbers,
        docs,
    } = parcel;
    OutUnit {
        unit: AleUnit {
            tid: Tid::of(system, number),
            sender: system,
            receiver,
            function,
            outq: queues.outq,
            inq: queues.inq,
            docs,
        },
        documents: numbers,
    }
}

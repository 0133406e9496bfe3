//! What a Dispatch makes of the documents that wait: packets, row by row.

ghost use Rattle.std.specs.Prelude.{◌≡◌, ◌<◌, ◌≤◌, ◌++◌, ℕ, [], Some, length, map, replicate, slice_get, IfOk, OnOk};
ghost use Rattle.dist_model.specs.Model.{IsModel};
ghost use Rattle.outbound_build.specs.Added.{collected_queues, dispatched, packed, packed_for, packets, waiting_for};
ghost use Rattle.outbound_build.specs.QueueNames.{named_once};
ghost use Rattle.outbound_build.specs.steps.Packets.{AreWaitingFor, IsCollecting};

use crate::naming::text_names;
use crate::parcel::Parcel;
use crate::{QueueLists, Waiting};
use ale_base::{Items, OutOfMemory, SystemNo};
use dist_model::{Model, Outbound, RowNo};
use std::alloc::Global;

/// The units that a Dispatch makes: for each row of the sender in order, packets of the documents that wait for it. It takes
/// a time that grows with these documents and the rows of the model.
pub(crate) fn dispatched(
    alloc: Global,
    model: &Model,
    system: SystemNo,
    waiting: &[Waiting],
) -> Result<Items<Parcel>, OutOfMemory>
    ensures { IfOk result (λ parcels. parcels ≡ dispatched model.now system waiting.now) }
{
    let rows = model.as_lists().rows.as_slice();
    let lists = waiting_by_row(alloc, rows.len(), waiting)?;
    let mut parcels = Items::new(alloc);
    for place in 0..rows.len() {
        if rows[place].sender == system {
            let profile = model.outbound(RowNo(place as u16));
            add_packets(alloc, profile, lists[place].as_slice(), &mut parcels)?;
        }
    }
    Ok(parcels)
}

/// For each of so many rows, copies of the documents that wait for it.
fn waiting_by_row(
    alloc: Global,
    rows: usize,
    waiting: &[Waiting],
) -> Result<Items<Items<Waiting>>, OutOfMemory>
    ensures length { IfOk result (λ lists. length lists ≡ rows) }
    ensures each { IfOk result (AreWaitingFor waiting.now) }
{
    let mut lists = empty_lists(alloc, rows)?;
    for one in waiting {
        let place = one.row.0;
        let place = usize::from(place);
        if place < lists.len() {
            lists.at_mut(place).push(one.clone()?)?;
        }
    }
    Ok(lists)
}

/// So many empty lists.
fn empty_lists(alloc: Global, count: usize) -> Result<Items<Items<Waiting>>, OutOfMemory>
    ensures { IfOk result (λ lists. lists ≡ replicate count []) }
{
    let mut lists = Items::new(alloc);
    for _ in 0..count {
        lists.push(Items::new(alloc))?;
    }
    Ok(lists)
}

/// Adds the packets of documents that wait for a profile's row.
fn add_packets(
    alloc: Global,
    profile: &Outbound,
    waiting: &[Waiting],
    parcels: &mut Items<Parcel>,
) -> Result<(), OutOfMemory>
    requires { IsCollecting profile.now }
    ensures { OnOk result (parcels.new ≡ parcels.old ++ map (packed profile.now) (packets profile.now.packet waiting.now)) }
{
    let size = profile.packet as usize;
    let mut rest = waiting;
    while !rest.is_empty() {
        let (packet, behind) = rest.split_at(size.min(rest.len()));
        parcels.push(packed(alloc, profile, packet)?)?;
        rest = behind;
    }
    Ok(())
}

/// The unit of a packet.
fn packed(alloc: Global, profile: &Outbound, packet: &[Waiting]) -> Result<Parcel, OutOfMemory>
    requires { IsCollecting profile.now }
    ensures { IfOk result (λ parcel. parcel ≡ packed profile.now packet.now) }
{
    let queues = collected_queues(alloc, profile)?;
    let mut numbers = Items::new(alloc);
    let mut docs = Items::new(alloc);
    for one in packet {
        numbers.push(one.number)?;
        docs.push(one.document.clone()?)?;
    }
    Ok(Parcel {
        receiver: profile.receiver,
        function: profile.function,
        queues,
        numbers,
        docs,
    })
}

/// The queues of what is collected.
fn collected_queues(alloc: Global, profile: &Outbound) -> Result<QueueLists, OutOfMemory>
    requires { IsCollecting profile.now }
    ensures { IfOk result (λ queues. queues ≡ collected_queues profile.now) }
{
    let outq = text_names(alloc, profile.outq.as_slice())?;
    let inq = text_names(alloc, profile.inq.as_slice())?;
    Ok(QueueLists { outq, inq })
}

//! The index of a model: where in its lists stands what is looked up for each document.

ghost use Rattle.std.specs.Prelude.{◌≡◌, ◌<◌, ◌≤◌, ◌++◌, [], length, map, replicate, Contains, IfOk};
ghost use Rattle.std.specs.List.{AllByRecursion, IsDistinct};
ghost use Rattle.ale_base.specs.Text.{is_text};
ghost use Rattle.dist_model.specs.declared.limits.TheConstants.{MOST_OUTBOUND, MOST_ROWS};
ghost use Rattle.dist_model.specs.Way.{outbound_ways, same_way};
ghost use Rattle.dist_model.specs.Message.{message_names, reduced_names};
ghost use Rattle.dist_model.specs.Inbound.{same_inbound};
ghost use Rattle.dist_model.specs.Model.{HasProfile, IsModel};
ghost use Rattle.dist_model.specs.Index.{AreProfilesOf, AreRowsOf, inbound_triple, IsIndexOf};

use crate::{
    Inbound, Lists, Message, Names, Outbound, Reduced, Row, Triples, outbound_way, row_way,
};
use ale_base::{Items, OutOfMemory};
use std::alloc::Global;

/// Where in the lists of a model stands what is looked up for each document. `IsIndexOf` says what the fields are.
#[derive(Drop)]
pub(crate) struct Index {
    /// The names of the message types, and behind them those of the reduced ones.
    pub(crate) names: Names,
    /// For each message type the places of its rows, in order.
    pub(crate) rows: Items<Items<u16>>,
    /// For each row the place of its profile.
    pub(crate) profiles: Items<u16>,
    /// The profiles of what is received, by receiver, sender and the place of the name.
    pub(crate) inbound: Triples,
}

/// The index of lists that keep the rules of a model.
pub(crate) fn index_of(alloc: Global, lists: &Lists) -> Result<Index, OutOfMemory>
    requires { IsModel lists.now }
    ensures { IfOk result (IsIndexOf lists.now) }
{
    let names = names_of(alloc, lists.messages.as_slice(), lists.reduced.as_slice())?;
    let rows = rows_by_message(alloc, lists.messages.len(), lists.rows.as_slice())?;
    let profiles = profile_places(alloc, lists.rows.as_slice(), lists.outbound.as_slice())?;
    let inbound = inbound_triples(alloc, &names, lists.inbound.as_slice())?;
    Ok(Index {
        names,
        rows,
        profiles,
        inbound,
    })
}

fn names_of(alloc: Global, messages: &[Message], reduced: &[Reduced]) -> Result<Names, OutOfMemory>
    requires messages { IsDistinct is_text (message_names messages.now) }
    requires all { IsDistinct is_text (message_names messages.now ++ reduced_names reduced.now) }
    ensures { IfOk result (λ names. names ≡ message_names messages.now ++ reduced_names reduced.now) }
{
    let mut names = Names::new(alloc);
    add_messages(alloc, &mut names, messages)?;
    add_reduced(alloc, &mut names, reduced)?;
    Ok(names)
}

fn add_messages(alloc: Global, names: &mut Names, messages: &[Message]) -> Result<(), OutOfMemory>
    requires none { names.old ≡ [] }
    requires apart { IsDistinct is_text (message_names messages.now) }
    ensures { IfOk result (λ _. names.new ≡ message_names messages.now) }
{
    for message in messages {
        names.add(alloc, message.name.as_slice())?;
    }
    Ok(())
}

fn add_reduced(alloc: Global, names: &mut Names, reduced: &[Reduced]) -> Result<(), OutOfMemory>
    requires { IsDistinct is_text (names.old ++ reduced_names reduced.now) }
    ensures { IfOk result (λ _. names.new ≡ names.old ++ reduced_names reduced.now) }
{
    for one in reduced {
        names.add(alloc, one.name.as_slice())?;
    }
    Ok(())
}

/// So many empty lists.
fn empty_lists(alloc: Global, count: usize) -> Result<Items<Items<u16>>, OutOfMemory>
    ensures { IfOk result (λ lists. lists ≡ replicate count []) }
{
    let mut lists = Items::new(alloc);
    for _ in 0..count {
        lists.push(Items::new(alloc))?;
    }
    Ok(lists)
}

fn rows_by_message(
    alloc: Global,
    messages: usize,
    rows: &[Row],
) -> Result<Items<Items<u16>>, OutOfMemory>
    requires few { length rows.now ≤ MOST_ROWS }
    requires known { AllByRecursion (λ row. row.message < messages) rows.now }
    ensures { IfOk result (AreRowsOf messages rows.now) }
{
    let mut lists = empty_lists(alloc, messages)?;
    for (place, row) in rows.iter().enumerate() {
        let message = row.message.0;
        lists.at_mut(usize::from(message)).push(place as u16)?;
    }
    Ok(lists)
}

fn ways_of(alloc: Global, profiles: &[Outbound]) -> Result<Triples, OutOfMemory>
    requires { IsDistinct same_way (outbound_ways profiles.now) }
    ensures { IfOk result (λ ways. ways ≡ outbound_ways profiles.now) }
{
    let mut ways = Triples::new(alloc);
    for profile in profiles {
        ways.add(outbound_way(profile))?;
    }
    Ok(ways)
}

fn profile_places(
    alloc: Global,
    rows: &[Row],
    profiles: &[Outbound],
) -> Result<Items<u16>, OutOfMemory>
    requires few { length profiles.now ≤ MOST_OUTBOUND }
    requires apart { IsDistinct same_way (outbound_ways profiles.now) }
    requires there { AllByRecursion (HasProfile profiles.now) rows.now }
    ensures { IfOk result (AreProfilesOf rows.now profiles.now) }
{
    let ways = ways_of(alloc, profiles)?;
    let mut places = Items::new(alloc);
    for row in rows {
        let place = ways.place(row_way(row)).unwrap();
        places.push(place as u16)?;
    }
    Ok(places)
}

fn inbound_triples(
    alloc: Global,
    names: &Names,
    profiles: &[Inbound],
) -> Result<Triples, OutOfMemory>
    requires named { AllByRecursion (λ profile. Contains names.now profile.message) profiles.now }
    requires apart { IsDistinct same_inbound profiles.now }
    ensures { IfOk result (λ triples. triples ≡ map (inbound_triple names.now) profiles.now) }
{
    let mut triples = Triples::new(alloc);
    for profile in profiles {
        let name = names.place(profile.message.as_slice()).unwrap();
        let receiver = usize::from(profile.receiver.get());
        let sender = usize::from(profile.sender.get());
        triples.add((receiver, sender, name))?;
    }
    Ok(triples)
}

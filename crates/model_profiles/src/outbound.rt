//! The section of the profiles of what is sent.

ghost use Rattle.std.specs.Prelude.{◌≡◌, ◌∷◌, ◌++◌, [], IfOk};
ghost use Rattle.toml.specs.View.{view, table_view, items_view};
ghost use Rattle.dist_model.specs.Way.{outbound_way};
ghost use Rattle.model_keys.specs.Finding.{Gives};
ghost use Rattle.model_profiles.specs.Basis.{IsBasis};
ghost use Rattle.model_profiles.specs.Outbound.{changes_at, outbound_at, outbound_of, outbounds_of, queues_at};

use crate::basis::Basis;
use crate::changes::{converts_at, removes_at};
use crate::keys::{INQ, OUTBOUND, OUTBOUND_KEYS, OUTQ};
use crate::queue_rules::rules_at;
use crate::segments::NamedSegments;
use crate::sending::sending_at;
use crate::target::target_at;
use crate::ways::new_way_at;
use ale_base::Items;
use dist_model::{Convert, MOST_OUTBOUND, Outbound, QueueRule, Triples, message_entries};
use model_keys::{ReadError, entry_of, list_or_none_at, within};
use segment_defs::{TypeNo, TypePlace};
use std::alloc::Global;
use toml::{Table, Value};

/// The profiles of the section `outbound`, none where it is absent: Wrong where it is no list, Limit where there are more
/// than a model may have, and else the first finding of its entries in order, whose path begins with `outbound[k]`. In an
/// entry unknown keys come first; then `sender`, `receiver` and `message` as in a row, and Twice, at the entry, where a
/// profile before it has the same three; then the other keys, in the order in which the fields of `Outbound` stand. A name
/// that refers to something is Unknown where that does not exist, but in a rule that names a queue, where it is Wrong, as
/// it is of another message type. The rule is this project's own.
#[tactic(auto, unfolding(crate::specs::Outbound::outbound_at))]
pub fn outbound_at(
    alloc: Global,
    basis: &Basis<'_>,
    table: &Table,
) -> Result<Items<Outbound>, ReadError>
    requires { IsBasis basis.now }
    ensures { Gives (λ profiles. profiles) result
        (outbound_at basis.now.releases.now basis.now.systems.now basis.now.types.now basis.now.definitions.now
        basis.now.idoc_types.now basis.now.messages.now basis.now.reduced.now (table_view table.now)) }
{
    let values = list_or_none_at(alloc, MOST_OUTBOUND, OUTBOUND, table)?;
    outbounds_of(alloc, basis, values)
}

fn outbounds_of(
    alloc: Global,
    basis: &Basis<'_>,
    values: &[Value],
) -> Result<Items<Outbound>, ReadError>
    requires { IsBasis basis.now }
    ensures { Gives (λ profiles. profiles) result
        (outbounds_of basis.now.releases.now basis.now.systems.now basis.now.types.now basis.now.definitions.now
        basis.now.idoc_types.now basis.now.messages.now basis.now.reduced.now (items_view values.now)) }
{
    let mut profiles = Items::new(alloc);
    let mut ways = Triples::new(alloc);
    for (place, value) in values.iter().enumerate() {
        match outbound_of(alloc, basis, &mut ways, value) {
            Err(error) => return Err(within(alloc, OUTBOUND, place, error)),
            Ok(profile) => profiles.push(profile)?,
        }
    }
    Ok(profiles)
}

/// One more profile. Its way is in the table of those from then on.
#[tactic(auto, unfolding(crate::specs::Outbound::outbound_of))]
fn outbound_of(
    alloc: Global,
    basis: &Basis<'_>,
    ways: &mut Triples,
    value: &Value,
) -> Result<Outbound, ReadError>
    requires { IsBasis basis.now }
    ensures given { Gives (λ profile. profile) result
        (outbound_of basis.now.releases.now basis.now.systems.now basis.now.types.now basis.now.definitions.now
        basis.now.idoc_types.now basis.now.messages.now basis.now.reduced.now ways.old (view value.now)) }
    ensures added { IfOk result (λ profile. ways.new ≡ ways.old ++ outbound_way profile ∷ []) }
{
    let table = entry_of(alloc, value, &OUTBOUND_KEYS)?;
    let (sender, receiver, message) = new_way_at(
        alloc,
        basis.systems,
        basis.message_names,
        ways,
        table,
    )?;
    let (outmod, packet, release, reduced) = sending_at(alloc, basis, message, table)?;
    let segments = NamedSegments {
        types: basis.types,
        definitions: basis.definitions,
    };
    let (remove, convert) = changes_at(alloc, &segments, table)?;
    let (port, function) = target_at(alloc, table)?;
    let entries = message_entries(basis.idoc_types, basis.messages, message);
    let (outq, inq) = queues_at(alloc, &segments, entries, outmod, table)?;
    Ok(Outbound {
        sender,
        receiver,
        message,
        outmod,
        packet,
        release,
        reduced,
        remove,
        convert,
        port,
        function,
        outq,
        inq,
    })
}

/// The segment types that are removed, and the values that are replaced.
#[tactic(auto, unfolding(crate::specs::Outbound::changes_at))]
fn changes_at(
    alloc: Global,
    on: &NamedSegments<'_>,
    table: &Table,
) -> Result<(Items<TypeNo>, Items<Convert>), ReadError>
    ensures { Gives (λ changes. changes) result (changes_at on.now.types on.now.definitions (table_view table.now)) }
{
    let remove = removes_at(alloc, on, table)?;
    let convert = converts_at(alloc, on, table)?;
    Ok((remove, convert))
}

/// The rules that name the queues of the sender, and those of the receiver.
#[tactic(auto, unfolding(crate::specs::Outbound::queues_at))]
fn queues_at(
    alloc: Global,
    on: &NamedSegments<'_>,
    entries: &[TypePlace],
    outmod: u8,
    table: &Table,
) -> Result<(Items<QueueRule>, Items<QueueRule>), ReadError>
    ensures { Gives (λ queues. queues) result
        (queues_at on.now.types on.now.definitions entries.now outmod (table_view table.now)) }
{
    let outq = rules_at(alloc, on, entries, outmod, OUTQ, table)?;
    let inq = rules_at(alloc, on, entries, outmod, INQ, table)?;
    Ok((outq, inq))
}

//! What goes where: rows, and profiles of what is sent and received.

ghost use Rattle.toml.specs.View.{table_view};
ghost use Rattle.model_keys.specs.Finding.{Gives};
ghost use Rattle.model_text.specs.Model.{traffic_of};
ghost use Rattle.model_text.specs.Rules.{IsBasics, AreSubjects, IsBasisOf};

use crate::basics::Basics;
use crate::profiled::all_profiled;
use crate::subjects::Subjects;
use crate::whole::all_whole;
use ale_base::Items;
use dist_model::{Inbound, Outbound, Row};
use model_keys::ReadError;
use model_profiles::{Basis, inbound_at, outbound_at, rows_at};
use std::alloc::Global;
use toml::Table;

/// Rows and profiles.
#[derive(Drop)]
pub(crate) struct Traffic {
    pub(crate) rows: Items<Row>,
    pub(crate) outbound: Items<Outbound>,
    pub(crate) inbound: Items<Inbound>,
}

/// The sections on rows and profiles, and the checks over them.
#[tactic(auto, unfolding(crate::specs::Model::traffic_of))]
pub(crate) fn traffic_of(
    alloc: Global,
    on: &Basics,
    of: &Subjects,
    table: &Table,
) -> Result<Traffic, ReadError>
    requires basics { IsBasics on.now }
    requires subjects { AreSubjects on.now of.now }
    ensures { Gives (λ traffic. traffic) result (traffic_of on.now of.now (table_view table.now)) }
{
    let systems = &on.system_names;
    let rows = rows_at(
        alloc,
        systems,
        &on.definitions,
        &of.message_names,
        of.filters.as_slice(),
        table,
    )?;
    let outbound = outbound_at(alloc, &basis(on, of), table)?;
    let inbound = inbound_at(alloc, systems, &of.all_names, table)?;
    all_profiled(alloc, outbound.as_slice(), rows.as_slice())?;
    all_whole(
        alloc,
        &on.definitions,
        on.types.as_slice(),
        of.messages.as_slice(),
        outbound.as_slice(),
    )?;
    Ok(Traffic {
        rows,
        outbound,
        inbound,
    })
}

/// What profiles of what is sent refer to.
fn basis<'m>(on: &'m Basics, of: &'m Subjects) -> Basis<'m>
    ensures { IsBasisOf on.now of.now result }
{
    Basis {
        releases: &on.release_names,
        systems: &on.system_names,
        types: &on.segment_names,
        definitions: &on.definitions,
        idoc_types: on.types.as_slice(),
        messages: of.messages.as_slice(),
        message_names: &of.message_names,
        reduced: of.reduced.as_slice(),
        all_names: &of.all_names,
    }
}

//! The whole model, part by part.

ghost use Rattle.std.specs.Prelude.{◌≡◌};
ghost use Rattle.toml.specs.View.{table_view};
ghost use Rattle.model_keys.specs.Finding.{Gives};
ghost use Rattle.model_text.specs.Model.{lists, model_of, model_on};
ghost use Rattle.model_text.specs.Rules.{IsBasics};

use crate::basics::{Basics, basics_of};
use crate::keys::TOP_KEYS;
use crate::subjects::{Subjects, subjects_of};
use crate::traffic::{Traffic, traffic_of};
use dist_model::Lists;
use model_keys::{ReadError, only_known};
use std::alloc::Global;
use toml::Table;

/// The model of a whole text, which is this table.
#[tactic(auto, unfolding(crate::specs::Model::model_of, crate::specs::Model::model_on))]
pub(crate) fn model_of(alloc: Global, table: &Table) -> Result<Lists, ReadError>
    ensures { Gives (λ lists. lists) result (model_of (table_view table.now)) }
{
    only_known(alloc, "", table, &TOP_KEYS)?;
    let on = basics_of(alloc, table)?;
    model_on(alloc, on, table)
}

/// The model of a text over what it stands on.
fn model_on(alloc: Global, on: Basics, table: &Table) -> Result<Lists, ReadError>
    requires { IsBasics on }
    ensures { Gives (λ lists. lists) result (model_on on (table_view table.now)) }
{
    match rest_of(alloc, &on, table) {
        Err(error) => Err(error),
        Ok(rest) => Ok(lists(on, rest.of, rest.by)),
    }
}

/// What is sent, and what goes where.
#[derive(Drop)]
struct Rest {
    of: Subjects,
    by: Traffic,
}

/// All sections behind those that a model stands on.
#[tactic(auto, unfolding(crate::specs::Model::model_on))]
fn rest_of(alloc: Global, on: &Basics, table: &Table) -> Result<Rest, ReadError>
    requires { IsBasics on.now }
    ensures { Gives (λ rest. lists on.now rest.of rest.by) result (model_on on.now (table_view table.now)) }
{
    let of = subjects_of(alloc, on, table)?;
    let by = traffic_of(alloc, on, &of, table)?;
    Ok(Rest { of, by })
}

/// The lists of a model.
fn lists(on: Basics, of: Subjects, by: Traffic) -> Lists
    ensures { result ≡ lists on of by }
{
    Lists {
        releases: on.releases,
        systems: on.systems,
        definitions: on.definitions,
        types: on.types,
        kinds: of.kinds,
        messages: of.messages,
        reduced: of.reduced,
        filters: of.filters,
        rows: by.rows,
        outbound: by.outbound,
        inbound: by.inbound,
    }
}

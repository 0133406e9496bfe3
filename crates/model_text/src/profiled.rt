//! Rows and their profiles of what is sent.

ghost use Rattle.std.specs.Prelude.{◌≡◌, ℕ, IfOk, List, true};
ghost use Rattle.std.specs.List.{list_any};
ghost use Rattle.dist_model.specs.Triple.{same_triple};
ghost use Rattle.dist_model.specs.Way.{outbound_ways};
ghost use Rattle.model_keys.specs.Finding.{Gives};
ghost use Rattle.model_text.specs.Profiled.{all_profiled, profiled};

use crate::keys::ROW;
use ale_base::OutOfMemory;
use dist_model::{Outbound, Row, Triples, outbound_way, row_way};
use model_keys::{Cause, ReadError, at, within};
use std::alloc::Global;

/// Whether each row has a profile of what is sent: Missing, at the first row that has none.
pub(crate) fn all_profiled(
    alloc: Global,
    profiles: &[Outbound],
    rows: &[Row],
) -> Result<(), ReadError>
    ensures { Gives (λ _. true) result (all_profiled profiles.now rows.now) }
{
    let ways = ways_of(alloc, profiles)?;
    for (place, row) in rows.iter().enumerate() {
        match profiled(alloc, &ways, row) {
            Err(error) => return Err(within(alloc, ROW, place, error)),
            Ok(()) => {}
        }
    }
    Ok(())
}

/// The ways of the profiles.
fn ways_of(alloc: Global, profiles: &[Outbound]) -> Result<Triples, OutOfMemory>
    ensures { IfOk result (λ ways. (way : ℕ × ℕ × ℕ) →
        list_any (same_triple way) ways ≡ list_any (same_triple way) (outbound_ways profiles.now)) }
{
    let mut ways = Triples::new(alloc);
    for profile in profiles {
        ways.add(outbound_way(profile))?;
    }
    Ok(ways)
}

/// Whether a row has one of these ways.
#[tactic(auto, unfolding(crate::specs::Profiled::profiled))]
fn profiled(alloc: Global, ways: &Triples, row: &Row) -> Result<(), ReadError>
    ensures { Gives (λ _. true) result (profiled ways.now row.now) }
{
    if !has_way(ways, row_way(row)) {
        return Err(ReadError::Found(at(alloc, Cause::Missing, "")?));
    }
    Ok(())
}

fn has_way(ways: &Triples, way: (usize, usize, usize)) -> bool
    ensures { result ≡ list_any (same_triple way) ways.now }
{
    ways.place(way).is_some()
}

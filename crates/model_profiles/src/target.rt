//! The port and the function of a receiver.

ghost use Rattle.toml.specs.View.{view, table_view};
ghost use Rattle.segment_defs.specs.declared.limits.TheConstants.{LONGEST_NAME};
ghost use Rattle.model_keys.specs.Finding.{Gives};
ghost use Rattle.model_keys.specs.Keys.{name_of};
ghost use Rattle.model_profiles.specs.declared.keys.TheConstants.{FUNCTION};
ghost use Rattle.model_profiles.specs.Outbound.{function_at, port_at, target_at};

use crate::keys::{FUNCTION, PORT, STANDARD_FUNCTION};
use ale_base::{Fixed, Items};
use dist_model::LONGEST_PORT;
use model_keys::{ReadError, fixed_name, get, name_of};
use segment_defs::LONGEST_NAME;
use std::alloc::Global;
use toml::{Table, Value};

/// The port of the receiver, and the function that it executes.
#[tactic(auto, unfolding(crate::specs::Outbound::target_at))]
pub(crate) fn target_at(alloc: Global, table: &Table) -> Result<(Items<u8>, Fixed<30>), ReadError>
    ensures { Gives (λ target. target) result (target_at (table_view table.now)) }
{
    let port = port_at(alloc, table)?;
    let function = function_at(alloc, table)?;
    Ok((port, function))
}

#[tactic(auto, unfolding(crate::specs::Outbound::port_at))]
fn port_at(alloc: Global, table: &Table) -> Result<Items<u8>, ReadError>
    ensures { Gives (λ port. port) result (port_at (table_view table.now)) }
{
    match get(table, PORT) {
        None => Ok(Items::new(alloc)),
        Some(value) => {
            let name = name_of(alloc, LONGEST_PORT, PORT, value)?;
            Ok(Items::from_slice(alloc, name.as_bytes())?)
        }
    }
}

fn function_of(alloc: Global, value: &Value) -> Result<Fixed<30>, ReadError>
    ensures { Gives (λ function. function) result (name_of LONGEST_NAME FUNCTION.now (view value.now)) }
{
    let name = name_of(alloc, LONGEST_NAME, FUNCTION, value)?;
    Ok(fixed_name(name.as_bytes()))
}

#[tactic(auto, unfolding(crate::specs::Outbound::function_at))]
fn function_at(alloc: Global, table: &Table) -> Result<Fixed<30>, ReadError>
    ensures { Gives (λ function. function) result (function_at (table_view table.now)) }
{
    match get(table, FUNCTION) {
        None => Ok(fixed_name(STANDARD_FUNCTION.as_bytes())),
        Some(value) => function_of(alloc, value),
    }
}

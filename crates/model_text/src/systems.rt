//! The section of the systems.

ghost use Rattle.std.specs.Prelude.{◌≡◌, ◌∷◌, ◌++◌, [], IfOk};
ghost use Rattle.toml.specs.View.{view, table_view, items_view};
ghost use Rattle.dist_model.specs.Model.{system_names};
ghost use Rattle.model_keys.specs.Finding.{Gives};
ghost use Rattle.model_text.specs.Systems.{client_at, client_in, client_of, function_of, functions_at, functions_of, system_of, systems_at, systems_of};

use crate::keys::{
    CLIENT, FUNCTIONS, NAME, STANDARD_CLIENT, STANDARD_FUNCTION, SYSTEM, SYSTEM_KEYS,
};
use ale_base::{Fixed, Items};
use dist_model::{LONGEST_SYSTEM, MOST_FUNCTIONS, MOST_SYSTEMS, Names, System};
use model_keys::{
    Cause, ReadError, at, entry_of, fixed_name, get, list_of, name_of, new_name_at, some_list_at,
    within,
};
use segment_defs::LONGEST_NAME;
use std::alloc::Global;
use toml::{Table, Value};

/// The systems. Their names are in the table from then on.
#[tactic(auto, unfolding(crate::specs::Systems::systems_at))]
pub(crate) fn systems_at(
    alloc: Global,
    names: &mut Names,
    table: &Table,
) -> Result<Items<System>, ReadError>
    requires { names.old ≡ [] }
    ensures given { Gives (λ systems. systems) result (systems_at (table_view table.now)) }
    ensures named { IfOk result (λ systems. names.new ≡ system_names systems) }
{
    let values = some_list_at(alloc, MOST_SYSTEMS, SYSTEM, table)?;
    systems_of(alloc, names, values)
}

fn systems_of(
    alloc: Global,
    names: &mut Names,
    values: &[Value],
) -> Result<Items<System>, ReadError>
    requires { names.old ≡ [] }
    ensures given { Gives (λ systems. systems) result (systems_of (items_view values.now)) }
    ensures named { IfOk result (λ systems. names.new ≡ system_names systems) }
{
    let mut systems = Items::new(alloc);
    for (place, value) in values.iter().enumerate() {
        match system_of(alloc, names, value) {
            Err(error) => return Err(within(alloc, SYSTEM, place, error)),
            Ok(system) => systems.push(system)?,
        }
    }
    Ok(systems)
}

#[tactic(auto, unfolding(crate::specs::Systems::system_of))]
fn system_of(alloc: Global, names: &mut Names, value: &Value) -> Result<System, ReadError>
    ensures given { Gives (λ system. system) result (system_of names.old (view value.now)) }
    ensures named { IfOk result (λ system. names.new ≡ names.old ++ system.name ∷ []) }
{
    let table = entry_of(alloc, value, &SYSTEM_KEYS)?;
    let name = new_name_at(alloc, LONGEST_SYSTEM, NAME, names, table)?;
    let client = client_at(alloc, table)?;
    let functions = functions_at(alloc, table)?;
    Ok(System {
        name,
        client,
        functions,
    })
}

/// The client of these bytes: three digits.
fn client_in(text: &[u8]) -> Option<[u8; 3]>
    ensures { result ≡ client_in text.now }
{
    match text {
        [a, b, c] if a.is_ascii_digit() && b.is_ascii_digit() && c.is_ascii_digit() => {
            Some([*a, *b, *c])
        }
        _ => None,
    }
}

#[tactic(auto, unfolding(crate::specs::Systems::client_of))]
fn client_of(alloc: Global, value: &Value) -> Result<[u8; 3], ReadError>
    ensures { Gives (λ client. client) result (client_of (view value.now)) }
{
    match value {
        Value::String(text) => match client_in(text.as_bytes()) {
            Some(client) => Ok(client),
            None => Err(ReadError::Found(at(alloc, Cause::Wrong, CLIENT)?)),
        },
        _ => Err(ReadError::Found(at(alloc, Cause::Wrong, CLIENT)?)),
    }
}

#[tactic(auto, unfolding(crate::specs::Systems::client_at))]
fn client_at(alloc: Global, table: &Table) -> Result<[u8; 3], ReadError>
    ensures { Gives (λ client. client) result (client_at (table_view table.now)) }
{
    match get(table, CLIENT) {
        None => Ok(STANDARD_CLIENT),
        Some(value) => client_of(alloc, value),
    }
}

fn function_of(alloc: Global, value: &Value) -> Result<Fixed<30>, ReadError>
    ensures { Gives (λ function. function) result (function_of (view value.now)) }
{
    let name = name_of(alloc, LONGEST_NAME, "", value)?;
    Ok(fixed_name(name.as_bytes()))
}

fn functions_of(alloc: Global, values: &[Value]) -> Result<Items<Fixed<30>>, ReadError>
    ensures { Gives (λ functions. functions) result (functions_of (items_view values.now)) }
{
    let mut functions = Items::new(alloc);
    for (place, value) in values.iter().enumerate() {
        match function_of(alloc, value) {
            Err(error) => return Err(within(alloc, FUNCTIONS, place, error)),
            Ok(function) => functions.push(function)?,
        }
    }
    Ok(functions)
}

#[tactic(auto, unfolding(crate::specs::Systems::functions_at))]
fn functions_at(alloc: Global, table: &Table) -> Result<Items<Fixed<30>>, ReadError>
    ensures { Gives (λ functions. functions) result (functions_at (table_view table.now)) }
{
    match get(table, FUNCTIONS) {
        None => {
            let mut functions = Items::new(alloc);
            functions.push(fixed_name(STANDARD_FUNCTION.as_bytes()))?;
            Ok(functions)
        }
        Some(value) => {
            let values = list_of(alloc, MOST_FUNCTIONS, FUNCTIONS, value)?;
            functions_of(alloc, values)
        }
    }
}

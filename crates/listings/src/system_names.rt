//! The names of systems.

ghost use Rattle.std.specs.Prelude.{◌≡◌, List};
ghost use Rattle.unit_core.specs.declared.records.Record.{Record};
ghost use Rattle.dist_model.specs.Named.{system_name};
ghost use Rattle.said_models.specs.OfLog.{model_of};
ghost use Rattle.document_state.specs.Tables.{AreTablesOf};
ghost use Rattle.listings.specs.SystemNames.{name_under};

use dist_model::Lists;
use document_state::DocumentTables;

/// The name of the system of a number, by the model in force; no bytes where there is none.
pub(crate) fn name_under(documents: &DocumentTables, system: u8) -> &[u8]
    ensures { (log : List Record) → AreTablesOf log documents.now → result.now ≡ name_under (model_of log) system }
{
    match documents.model() {
        None => &[],
        Some(model) => system_name(model.as_lists(), system),
    }
}

/// The name of the system of a number in a model; no bytes where there is none.
fn system_name(model: &Lists, system: u8) -> &[u8]
    ensures { result.now ≡ system_name model.now system }
{
    match model.systems.get(usize::from(system).saturating_sub(1)) {
        None => &[],
        Some(system) => system.name.as_slice(),
    }
}

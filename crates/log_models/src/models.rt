//! Which records have models, and the model in force.

ghost use Rattle.std.specs.Prelude.{◌≡◌, ◌↔◌, IsTrue};
ghost use Rattle.std.specs.Option.{option_copied};
ghost use Rattle.dist_model.specs.declared.lists.Lists.{Lists};
ghost use Rattle.log_models.specs.InForce.{in_force, models_after};

use dist_model::Model;
use unit_core::Record;

/// Whether a record has a model: a Genesis, and a Model record.
pub fn is_model(next: &Record) -> bool
    ensures { IsTrue result ↔ (models_after 0 next.now ≡ 1) }
{
    matches!(next, Record::Genesis { .. } | Record::Model { .. })
}

/// Of the models of a log, in order, the one that is in force behind so many of them: the last of these. None exactly where there
/// were none, or more than are given.
pub fn in_force(models: &[Model], count: usize) -> Option<&Model>
    ensures { option_copied result ≡ in_force models.now count }
{
    if count == 0 {
        return None;
    }
    models.get(count - 1)
}

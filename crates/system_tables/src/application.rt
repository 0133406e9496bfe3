//! The application's own tables, which a system's tables carry along.

use ale_base::OutOfMemory;
use std::alloc::Global;
use unit_core::Record;

/// The tables of an application over a system's log, which each record of the log is noted in.
pub trait Application: Drop {
    ghost use Rattle.std.specs.Prelude.{◌≡◌, List, [], ◌∷◌, ◌++◌, OnOk, false};
    ghost use Rattle.unit_core.specs.declared.records.Record.{Record};
    ghost use Rattle.system_tables.specs.Concerns.{concerns_application};

    /// What was made for a record before it was written.
    type Extra: Drop;

    // Whether the tables are those of a log.
    ghost stands: { Self → List Record → Type 0 };

    // Whether this is what was made for a record that follows a log, at the tables of that log.
    ghost goes_with: { Self → List Record → Record → Self.Extra → Type 0 };

    /// What goes with a record that says nothing to an application.
    fn nothing() -> Self::Extra
        ensures { (application : Self) (log : List Record) (next : Record) → concerns_application next ≡ false → goes_with application log next result };

    /// Notes one more record of a log, with what was made for it. After an `Err` nothing is known of the tables.
    fn note(&mut self, alloc: Global, next: &Record, extra: Self::Extra) -> Result<(), OutOfMemory>
        ensures noted { (log : List Record) → stands self.old log → goes_with self.old log next.now extra
            → OnOk result (stands self.new (log ++ next.now ∷ [])) };
}

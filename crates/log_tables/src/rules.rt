//! What the rules decide at the tables of a log.

ghost use Rattle.std.specs.Prelude.{◌≡◌, ◌≢◌, [], ◌∷◌, ◌++◌, IfOk};
ghost use Rattle.std.specs.Option.{option_copied};
ghost use Rattle.trfc_protocol.specs.Legal.{IsLegal, MayFollow};
ghost use Rattle.log_tables.specs.Read.{executed_unit};

use ale_base::{Fixed, Items, OutOfMemory, SystemNo};
use std::alloc::Global;
use system_tables::Application;
use trfc_protocol::Rules;
use unit_core::{AleUnit, Record};

/// What a record brings: the units that it commits, and what was made for the application.
#[derive(Drop)]
pub struct Brought<A: Application> {
    pub units: Items<AleUnit>,
    pub extra: A::Extra,
}

/// Rules that decide by the tables of an application over a log. The log is handed in for what it says of the tables; none of these calls
/// is to walk it. What was read for one record is kept for others.
pub trait LogRules: Rules {
    type Tables: Application;

    /// What was read, and need not be read again.
    type Known: Drop;

    /// Whether a Commit, Dispatch, Put, App, Repost or Model may follow the log of these tables.
    fn allows_at(
        &self,
        alloc: Global,
        known: &mut Self::Known,
        system: SystemNo,
        tables: &Self::Tables,
        log: &[Record],
        next: &Record,
    ) -> Result<bool, OutOfMemory>
        requires stands { Self.Tables.stands tables.now log.now }
        requires legal { IsLegal (Self.meaning self.now) system log.now }
        requires begun { log.now ≢ [] }
        ensures { IfOk result (λ may. may ≡ (Self.meaning self.now).allows system log.now next.now) };

    /// Whether the system offers a function at the end of the log of these tables.
    fn offers_at(
        &self,
        system: SystemNo,
        tables: &Self::Tables,
        log: &[Record],
        function: &Fixed<30>,
    ) -> bool
        requires stands { Self.Tables.stands tables.now log.now }
        requires legal { IsLegal (Self.meaning self.now) system log.now }
        ensures { result ≡ (Self.meaning self.now).offers system log.now function.now };

    /// What a record brings that may follow the log of these tables. An Execute comes with its unit.
    fn brings(
        &self,
        alloc: Global,
        known: &mut Self::Known,
        system: SystemNo,
        tables: &Self::Tables,
        log: &[Record],
        next: &Record,
        executed: Option<&AleUnit>,
    ) -> Result<Brought<Self::Tables>, OutOfMemory>
        requires stands { Self.Tables.stands tables.now log.now }
        requires may { MayFollow (Self.meaning self.now) system log.now next.now }
        requires executed { option_copied executed ≡ executed_unit log.now next.now }
        ensures units { IfOk result (λ brought. (Self.meaning self.now).committed system (log.now ++ next.now ∷ []) ≡ (Self.meaning self.now).committed system log.now ++ brought.units) }
        ensures extra { IfOk result (λ brought. Self.Tables.goes_with tables.now log.now next.now brought.extra) };
}

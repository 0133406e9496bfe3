//! The tables of a log, and one more record of it.

ghost use Rattle.std.specs.Prelude.{◌≡◌, ◌++◌, ◌∷◌, [], true, false, All, IfOk};
ghost use Rattle.trfc_protocol.specs.Legal.{may_follow};
ghost use Rattle.log_tables.specs.OfLog.{IsRead, IsReadTo};
ghost use Rattle.log_tables.specs.Read.{CommitFew, IsProper};

use crate::LogRules;
use crate::deciding::may_follow;
use crate::noting::note;
use crate::places::Places;
use ale_base::{OutOfMemory, SystemNo};
use std::alloc::Global;
use std::marker::Model;
use system_tables::{Application, SystemTables};
use tid_table::Tids;
use unit_core::Record;

/// The tables of a log that is read record by record. Contracts see those of its system, the places of the units
/// that it received, and the ids that are done and that are forgotten.
#[derive(Drop)]
pub struct LogTables<A: Application> {
    pub(crate) tables: SystemTables<A>,
    pub(crate) places: Places,
    pub(crate) done: Tids,
    pub(crate) forgotten: Tids,
}

impl<A: Application> Model for LogTables<A> {
    ghost use Rattle.log_tables.specs.OfLog.{LogTablesOf};

    ghost Value = { LogTablesOf A };

    ghost view = { λ its. record { tables = its.tables; places = its.places; done = its.done; forgotten = its.forgotten } };
}

impl<A: Application> LogTables<A> {
    ghost use Rattle.std.specs.Prelude.{◌≡◌};
    ghost use Rattle.log_tables.specs.OfLog.{no_log_tables};

    /// The tables of a log that has no records, beside those of an application. It takes no memory.
    pub fn new(alloc: Global, application: A) -> LogTables<A>
        ensures { result ≡ no_log_tables application }
    {
        LogTables {
            tables: SystemTables::new(alloc, application),
            places: Places::new(alloc),
            done: Tids::new(alloc),
            forgotten: Tids::new(alloc),
        }
    }

    /// The tables of the system.
    pub fn into_tables(self) -> SystemTables<A>
        ensures { result ≡ self.tables }
    {
        self.tables
    }
}

/// One more record of a log: the answer is whether it may follow, and where it may, the tables are those of the log with it.
/// Where it may not, they are as before; after an `Err` nothing is known of them.
pub fn take<R: LogRules>(
    alloc: Global,
    rules: &R,
    known: &mut R::Known,
    system: SystemNo,
    its: &mut LogTables<R::Tables>,
    log: &[Record],
    next: &Record,
) -> Result<bool, OutOfMemory>
    requires few { CommitFew (R.meaning rules.now) }
    requires proper { IsProper next.now }
    requires read { IsRead (R.meaning rules.now) R.Tables.stands system log.now its.old }
    ensures may { IfOk result (λ may. may ≡ may_follow (R.meaning rules.now) system log.now next.now) }
    ensures stays { IfOk result (λ may. may ≡ false → its.new ≡ its.old) }
    ensures read { IfOk result (λ may. may ≡ true → IsRead (R.meaning rules.now) R.Tables.stands system (log.now ++ next.now ∷ []) its.new) }
{
    if !may_follow(alloc, rules, known, system, its, log, next)? {
        return Ok(false);
    }
    note(alloc, rules, known, system, its, log, next)?;
    Ok(true)
}

/// Reads the log of a system, as far as it is legal: the tables are those of its first records, as many as this, and the next one, where
/// there is one, may not follow them.
pub fn read<R: LogRules>(
    alloc: Global,
    rules: &R,
    known: &mut R::Known,
    system: SystemNo,
    application: R::Tables,
    log: &[Record],
) -> Result<(LogTables<R::Tables>, usize), OutOfMemory>
    requires few { CommitFew (R.meaning rules.now) }
    requires begins { R.Tables.stands application [] }
    requires proper { All IsProper log.now }
    ensures { IfOk result (λ read. IsReadTo (R.meaning rules.now) R.Tables.stands system log.now read.1 read.0) }
{
    let mut its = LogTables::new(alloc, application);
    for (place, next) in log.iter().enumerate() {
        if !take(alloc, rules, known, system, &mut its, &log[..place], next)? {
            return Ok((its, place));
        }
    }
    Ok((its, log.len()))
}

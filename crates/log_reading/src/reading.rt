//! A log that is there, read record by record.

ghost use Rattle.std.specs.Prelude.{◌≡◌, ◌++◌, ◌∷◌, [], None, length, take, All, IfOk, IfSome};
ghost use Rattle.log_tables.specs.OfLog.{IsRead};
ghost use Rattle.log_tables.specs.Read.{CommitFew, IsProper};
ghost use Rattle.log_reading.specs.Bad.{IsBadBy, IsGood};
ghost use Rattle.log_reading.specs.Reading.{AreGoodTo, IsFirstBad, IsReadAs};

use crate::bad::{BadRecord, Cause, mismatch_of};
use crate::moments::may_come;
use ale_base::{OutOfMemory, SystemNo};
use log_tables::{LogRules, LogTables, take};
use std::alloc::Global;
use unit_core::Record;

/// Reads the log of a system, whose records have these moments and whose Genesis has this text of the model: its tables, or the
/// first record of it that is bad. At one record the number of the system comes first, then the text, and then whether it may
/// follow.
pub fn read_log<R: LogRules>(
    alloc: Global,
    rules: &R,
    known: &mut R::Known,
    system: SystemNo,
    text: &[u8],
    application: R::Tables,
    moments: &[Option<u64>],
    log: &[Record],
) -> Result<Result<LogTables<R::Tables>, BadRecord>, OutOfMemory>
    requires few { CommitFew (R.meaning rules.now) }
    requires begins { R.Tables.stands application [] }
    requires proper { All IsProper log.now }
    requires moments { length moments.now ≡ length log.now }
    ensures { IfOk result (IsReadAs (R.meaning rules.now) R.Tables.stands system text.now moments.now log.now) }
{
    let mut its = LogTables::new(alloc, application);
    match first_bad(alloc, rules, known, system, text, &mut its, moments, log)? {
        Some(bad) => Ok(Err(bad)),
        None => Ok(Ok(its)),
    }
}

/// Reads a log into the tables of no records, up to the first record that is bad.
fn first_bad<R: LogRules>(
    alloc: Global,
    rules: &R,
    known: &mut R::Known,
    system: SystemNo,
    text: &[u8],
    its: &mut LogTables<R::Tables>,
    moments: &[Option<u64>],
    log: &[Record],
) -> Result<Option<BadRecord>, OutOfMemory>
    requires few { CommitFew (R.meaning rules.now) }
    requires read { IsRead (R.meaning rules.now) R.Tables.stands system [] its.old }
    requires proper { All IsProper log.now }
    requires moments { length moments.now ≡ length log.now }
    ensures good { IfOk result (λ bad. bad ≡ None → AreGoodTo (R.meaning rules.now) system text.now moments.now log.now (length log.now)) }
    ensures read { IfOk result (λ bad. bad ≡ None → IsRead (R.meaning rules.now) R.Tables.stands system log.now its.new) }
    ensures bad { IfOk result (λ bad. IfSome bad (IsFirstBad (R.meaning rules.now) system text.now moments.now log.now)) }
{
    let mut before = None;
    for (place, next) in log.iter().enumerate() {
        let moment = moments[place];
        let log = &log[..place];
        match read_next(
            alloc, rules, known, system, text, its, before, moment, log, next,
        )? {
            Some(cause) => {
                let number = place as u64 + 1;
                return Ok(Some(BadRecord { number, cause }));
            }
            None => before = moment,
        }
    }
    Ok(None)
}

/// Reads one more record of a log, of this moment after the one before: why it is bad, or nothing, and then the tables are those of
/// the log with it.
fn read_next<R: LogRules>(
    alloc: Global,
    rules: &R,
    known: &mut R::Known,
    system: SystemNo,
    text: &[u8],
    its: &mut LogTables<R::Tables>,
    before: Option<u64>,
    moment: Option<u64>,
    log: &[Record],
    next: &Record,
) -> Result<Option<Cause>, OutOfMemory>
    requires few { CommitFew (R.meaning rules.now) }
    requires proper { IsProper next.now }
    requires read { IsRead (R.meaning rules.now) R.Tables.stands system log.now its.old }
    ensures good { IfOk result (λ cause. cause ≡ None → IsGood (R.meaning rules.now) system text.now before moment log.now next.now) }
    ensures read { IfOk result (λ cause. cause ≡ None → IsRead (R.meaning rules.now) R.Tables.stands system (log.now ++ next.now ∷ []) its.new) }
    ensures bad { IfOk result (λ cause. IfSome cause (IsBadBy (R.meaning rules.now) system text.now before moment log.now next.now)) }
{
    if let Some(cause) = mismatch_of(system, text, next) {
        return Ok(Some(cause));
    }
    if !may_come(before, moment) {
        return Ok(Some(Cause::Illegal));
    }
    if take(alloc, rules, known, system, its, log, next)? {
        Ok(None)
    } else {
        Ok(Some(Cause::Illegal))
    }
}

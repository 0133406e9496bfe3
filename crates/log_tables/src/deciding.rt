//! Whether a record may follow a log, by the tables of the log.

ghost use Rattle.std.specs.Prelude.{◌≡◌, ◌&&◌, ◌≢◌, [], not, IfOk};
ghost use Rattle.unit_core.specs.Filters.{received, done_in, ended_in, forgotten_in};
ghost use Rattle.unit_core.specs.Queues.{is_listed, is_among};
ghost use Rattle.trfc_protocol.specs.Legal.{may_begin, may_follow, may_follow_others, is_free_outbound, is_free_inbound, is_new, is_destination, is_open_at, offers_received};
ghost use Rattle.log_tables.specs.OfLog.{IsRead};

use crate::places::unit_received;
use crate::{LogRules, LogTables};
use ale_base::{OutOfMemory, SystemNo, Tid, Way};
use std::alloc::Global;
use unit_core::{AleUnit, Record};

/// Whether a record may follow the log of these tables.
pub(crate) fn may_follow<R: LogRules>(
    alloc: Global,
    rules: &R,
    known: &mut R::Known,
    system: SystemNo,
    its: &LogTables<R::Tables>,
    log: &[Record],
    next: &Record,
) -> Result<bool, OutOfMemory>
    requires { IsRead (R.meaning rules.now) R.Tables.stands system log.now its.now }
    ensures { IfOk result (λ may. may ≡ may_follow (R.meaning rules.now) system log.now next.now) }
{
    if log.is_empty() {
        return Ok(may_begin(system, next));
    }
    may_follow_others(alloc, rules, known, system, its, log, next)
}

/// Whether a record may begin a log.
fn may_begin(system: SystemNo, next: &Record) -> bool
    ensures { result ≡ may_begin system next.now }
{
    match next {
        Record::Genesis { system: number, .. } => *number == system.get(),
        _ => false,
    }
}

/// Whether a record may follow the log of these tables, which is not empty.
fn may_follow_others<R: LogRules>(
    alloc: Global,
    rules: &R,
    known: &mut R::Known,
    system: SystemNo,
    its: &LogTables<R::Tables>,
    log: &[Record],
    next: &Record,
) -> Result<bool, OutOfMemory>
    requires read { IsRead (R.meaning rules.now) R.Tables.stands system log.now its.now }
    requires begun { log.now ≢ [] }
    ensures { IfOk result (λ may. may ≡ may_follow_others (R.meaning rules.now) system log.now next.now) }
{
    let may = match next {
        Record::Genesis { .. } => false,
        Record::Mark { tid, .. } | Record::Done { tid } => may_send(rules, system, its, log, *tid),
        Record::Ended { tid } => may_end(rules, system, its, log, *tid),
        Record::Accept { unit } => { is_new(rules, system, its, log, unit) && !unit.inq.is_empty() }
        Record::Direct { unit } => {
            is_new(rules, system, its, log, unit)
                && unit.inq.is_empty()
                && offers(rules, system, its, log, unit)
        }
        Record::Execute { tid } => {
            may_execute(rules, system, its, log, *tid)
                && offers_received(rules, system, its, log, *tid)
        }
        Record::Fail { tid } => {
            may_execute(rules, system, its, log, *tid)
                && !offers_received(rules, system, its, log, *tid)
        }
        Record::Forget { tid } => may_forget(rules, system, its, log, *tid),
        Record::Stop {
            way,
            destination,
            ..
        }
        | Record::Start {
            way,
            destination,
            ..
        } => is_destination(rules.systems(), system, *way, *destination),
        Record::Retry { way, tid } => is_open_at(rules, system, its, log, *way, *tid),
        Record::Commit { .. }
        | Record::Dispatch
        | Record::Put { .. }
        | Record::App { .. }
        | Record::Repost { .. }
        | Record::Model { .. } => {
            return rules.allows_at(alloc, known, system, its.tables.application(), log, next);
        }
    };
    Ok(may)
}

/// Whether the unit of this id may be sent: it is not done, not marked, and heads its outbound queues.
fn may_send<R: LogRules>(
    rules: &R,
    system: SystemNo,
    its: &LogTables<R::Tables>,
    log: &[Record],
    tid: Tid,
) -> bool
    requires { IsRead (R.meaning rules.now) R.Tables.stands system log.now its.now }
    ensures { result ≡ is_free_outbound ((R.meaning rules.now).committed system log.now) log.now tid }
{
    let _log = log;
    its.tables.is_free(Way::Outgoing, tid)
}

/// Whether the unit of this id may be executed: it was received, is not executed, not marked, and heads its inbound queues.
fn may_execute<R: LogRules>(
    rules: &R,
    system: SystemNo,
    its: &LogTables<R::Tables>,
    log: &[Record],
    tid: Tid,
) -> bool
    requires { IsRead (R.meaning rules.now) R.Tables.stands system log.now its.now }
    ensures { result ≡ is_free_inbound log.now tid }
{
    its.tables.is_free(Way::Incoming, tid)
}

/// Whether a unit may be ended: it is done, and not ended.
fn may_end<R: LogRules>(
    rules: &R,
    system: SystemNo,
    its: &LogTables<R::Tables>,
    log: &[Record],
    tid: Tid,
) -> bool
    requires { IsRead (R.meaning rules.now) R.Tables.stands system log.now its.now }
    ensures { result ≡ (is_listed tid (done_in log.now) && not (is_listed tid (ended_in log.now))) }
{
    its.tables.is_unconfirmed(tid)
}

/// Whether an id may be forgotten: its unit was received, and it is not forgotten.
fn may_forget<R: LogRules>(
    rules: &R,
    system: SystemNo,
    its: &LogTables<R::Tables>,
    log: &[Record],
    tid: Tid,
) -> bool
    requires { IsRead (R.meaning rules.now) R.Tables.stands system log.now its.now }
    ensures { result ≡ (is_among tid (received log.now) && not (is_listed tid (forgotten_in log.now))) }
{
    its.tables.is_seen(tid)
}

/// Whether a unit may be taken in: it is for this system, and none of its id was received.
fn is_new<R: LogRules>(
    rules: &R,
    system: SystemNo,
    its: &LogTables<R::Tables>,
    log: &[Record],
    unit: &AleUnit,
) -> bool
    requires { IsRead (R.meaning rules.now) R.Tables.stands system log.now its.now }
    ensures { result ≡ is_new system log.now unit.now }
{
    unit.receiver == system && !is_received(rules, system, its, log, unit.tid)
}

/// Whether the unit of this id was received.
fn is_received<R: LogRules>(
    rules: &R,
    system: SystemNo,
    its: &LogTables<R::Tables>,
    log: &[Record],
    tid: Tid,
) -> bool
    requires { IsRead (R.meaning rules.now) R.Tables.stands system log.now its.now }
    ensures { result ≡ is_among tid (received log.now) }
{
    unit_received(&its.places, log, tid).is_some()
}

/// Whether a system offers the function of a unit.
fn offers<R: LogRules>(
    rules: &R,
    system: SystemNo,
    its: &LogTables<R::Tables>,
    log: &[Record],
    unit: &AleUnit,
) -> bool
    requires { IsRead (R.meaning rules.now) R.Tables.stands system log.now its.now }
    ensures { result ≡ (R.meaning rules.now).offers system log.now unit.now.function }
{
    rules.offers_at(system, its.tables.application(), log, &unit.function)
}

/// Whether a system offers the function of a unit that it received.
fn offers_received<R: LogRules>(
    rules: &R,
    system: SystemNo,
    its: &LogTables<R::Tables>,
    log: &[Record],
    tid: Tid,
) -> bool
    requires { IsRead (R.meaning rules.now) R.Tables.stands system log.now its.now }
    ensures { result ≡ offers_received (R.meaning rules.now) system log.now tid }
{
    match unit_received(&its.places, log, tid) {
        Some(unit) => offers(rules, system, its, log, unit),
        None => false,
    }
}

/// Whether a queue leads somewhere: an outbound one to another system, and an inbound one has destination 0.
fn is_destination(systems: u8, system: SystemNo, way: Way, destination: u8) -> bool
    ensures { result ≡ is_destination systems system way destination }
{
    match way {
        Way::Outgoing => destination >= 1 && destination <= systems && destination != system.get(),
        Way::Incoming => destination == 0,
    }
}

/// Whether a unit of this id is outstanding in this direction.
fn is_open_at<R: LogRules>(
    rules: &R,
    system: SystemNo,
    its: &LogTables<R::Tables>,
    log: &[Record],
    way: Way,
    tid: Tid,
) -> bool
    requires { IsRead (R.meaning rules.now) R.Tables.stands system log.now its.now }
    ensures { result ≡ is_open_at (R.meaning rules.now) system log.now way tid }
{
    its.tables.is_outstanding(way, tid)
}

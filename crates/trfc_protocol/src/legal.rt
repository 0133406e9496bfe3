//! Legal logs: which record may follow one, and whether a log is one.

ghost use Rattle.std.specs.Prelude.{◌≡◌, ◌≤◌, ◌&&◌, ◌↔◌, not, IsTrue, IfOk};
ghost use Rattle.unit_core.specs.Filters.{received, done_in, ended_in, forgotten_in};
ghost use Rattle.unit_core.specs.Queues.{is_listed, is_among};
ghost use Rattle.trfc_protocol.specs.Meaning.{Meaning};
ghost use Rattle.trfc_protocol.specs.Legal.{IsLegal, may_begin, may_follow, may_follow_others, is_free_outbound, is_free_inbound, is_new, is_destination, is_open_at, offers_received, is_commit, is_operators, is_model};

use crate::Rules;
use ale_base::{OutOfMemory, SystemNo, Tid, Way};
use std::alloc::Global;
use unit_core::{
    AleUnit, Record, done_in, ended_in, executed, forgotten_in, heads_inbound, heads_outbound,
    is_among, is_listed, is_marked, received, unit_named,
};

/// Whether the log of a system is legal: each of its records may follow those before it. The moments of a journal's entries
/// are no part of a log, so their order is judged elsewhere.
pub fn is_legal<R: Rules>(
    alloc: Global,
    rules: &R,
    system: SystemNo,
    log: &[Record],
) -> Result<bool, OutOfMemory>
    requires { system ≤ (R.meaning rules.now).systems }
    ensures { IfOk result (λ legal. IsTrue legal ↔ IsLegal (R.meaning rules.now) system log.now) }
{
    for (place, next) in log.iter().enumerate() {
        if !may_follow(alloc, rules, system, &log[..place], next)? {
            return Ok(false);
        }
    }
    Ok(true)
}

/// Whether a record may follow a legal log of a system.
pub fn may_follow<R: Rules>(
    alloc: Global,
    rules: &R,
    system: SystemNo,
    log: &[Record],
    next: &Record,
) -> Result<bool, OutOfMemory>
    requires known { system ≤ (R.meaning rules.now).systems }
    requires legal { IsLegal (R.meaning rules.now) system log.now }
    ensures { IfOk result (λ may. may ≡ may_follow (R.meaning rules.now) system log.now next.now) }
{
    if log.is_empty() {
        return Ok(may_begin(system, next));
    }
    may_follow_others(alloc, rules, system, log, next)
}

/// Whether a record may begin a log.
fn may_begin(system: SystemNo, next: &Record) -> bool
    ensures { result ≡ may_begin system next.now }
{
    match next {
        Record::Genesis { system: number, .. } => *number == system.get(),
        _ => false,
    }
}

/// Whether a record may follow a legal log that is not empty.
fn may_follow_others<R: Rules>(
    alloc: Global,
    rules: &R,
    system: SystemNo,
    log: &[Record],
    next: &Record,
) -> Result<bool, OutOfMemory>
    requires known { system ≤ (R.meaning rules.now).systems }
    requires legal { IsLegal (R.meaning rules.now) system log.now }
    ensures { IfOk result (λ may. may ≡ may_follow_others (R.meaning rules.now) system log.now next.now) }
{
    match next {
        Record::Genesis { .. } => Ok(false),
        Record::Mark { tid, .. } | Record::Done { tid } => {
            is_free_outbound(alloc, rules, system, log, *tid)
        }
        Record::Ended { tid } => may_end(alloc, log, *tid),
        Record::Accept { unit } => Ok(is_new(alloc, system, log, unit)? && !unit.inq.is_empty()),
        Record::Direct { unit } => Ok(
            is_new(alloc, system, log, unit)?
                && unit.inq.is_empty()
                && rules.offers(alloc, system, log, &unit.function)?,
        ),
        Record::Execute { tid } => Ok(
            is_free_inbound(alloc, log, *tid)? && offers_received(alloc, rules, system, log, *tid)?,
        ),
        Record::Fail { tid } => Ok(
            is_free_inbound(alloc, log, *tid)?
                && !offers_received(alloc, rules, system, log, *tid)?,
        ),
        Record::Forget { tid } => may_forget(alloc, log, *tid),
        Record::Stop {
            way,
            destination,
            ..
        }
        | Record::Start {
            way,
            destination,
            ..
        } => Ok(is_destination(rules.systems(), system, *way, *destination)),
        Record::Retry { way, tid } => is_open_at(alloc, rules, system, log, *way, *tid),
        Record::Commit { .. }
        | Record::Dispatch
        | Record::Put { .. }
        | Record::App { .. }
        | Record::Repost { .. }
        | Record::Model { .. } => rules.allows(alloc, system, log, next),
    }
}

/// Whether the unit of this id may be sent: it is not done, not marked, and heads its outbound queues.
pub(crate) fn is_free_outbound<R: Rules>(
    alloc: Global,
    rules: &R,
    system: SystemNo,
    log: &[Record],
    tid: Tid,
) -> Result<bool, OutOfMemory>
    requires known { system ≤ (R.meaning rules.now).systems }
    requires legal { IsLegal (R.meaning rules.now) system log.now }
    ensures { IfOk result (λ free. free ≡ is_free_outbound ((R.meaning rules.now).committed system log.now) log.now tid) }
{
    let units = rules.units(alloc, system, log)?;
    let done = done_in(alloc, log)?;
    match unit_named(tid, units.as_slice()) {
        Some(unit) => Ok(
            !is_listed(unit.tid, done.as_slice())
                && !is_marked(Way::Outgoing, tid, log)
                && heads_outbound(done.as_slice(), units.as_slice(), unit),
        ),
        None => Ok(false),
    }
}

/// Whether the unit of this id may be executed: it was received, is not executed, not marked, and heads its inbound
/// queues.
pub(crate) fn is_free_inbound(alloc: Global, log: &[Record], tid: Tid) -> Result<bool, OutOfMemory>
    ensures { IfOk result (λ free. free ≡ is_free_inbound log.now tid) }
{
    let units = received(alloc, log)?;
    let executed = executed(alloc, log)?;
    match unit_named(tid, units.as_slice()) {
        Some(unit) => Ok(
            !is_listed(unit.tid, executed.as_slice())
                && !is_marked(Way::Incoming, tid, log)
                && heads_inbound(executed.as_slice(), units.as_slice(), unit),
        ),
        None => Ok(false),
    }
}

/// Whether a system offers the function of a unit that it received.
pub(crate) fn offers_received<R: Rules>(
    alloc: Global,
    rules: &R,
    system: SystemNo,
    log: &[Record],
    tid: Tid,
) -> Result<bool, OutOfMemory>
    requires known { system ≤ (R.meaning rules.now).systems }
    requires legal { IsLegal (R.meaning rules.now) system log.now }
    ensures { IfOk result (λ offers. offers ≡ offers_received (R.meaning rules.now) system log.now tid) }
{
    let units = received(alloc, log)?;
    match unit_named(tid, units.as_slice()) {
        Some(unit) => rules.offers(alloc, system, log, &unit.function),
        None => Ok(false),
    }
}

/// Whether a unit may be taken in: it is for this system, and none of its id was received.
fn is_new(
    alloc: Global,
    system: SystemNo,
    log: &[Record],
    unit: &AleUnit,
) -> Result<bool, OutOfMemory>
    ensures { IfOk result (λ new. new ≡ is_new system log.now unit.now) }
{
    let units = received(alloc, log)?;
    Ok(unit.receiver == system && !is_among(unit.tid, units.as_slice()))
}

/// Whether a unit may be ended: it is done, and not ended.
pub(crate) fn may_end(alloc: Global, log: &[Record], tid: Tid) -> Result<bool, OutOfMemory>
    ensures { IfOk result (λ may. may ≡ (is_listed tid (done_in log.now) && not (is_listed tid (ended_in log.now)))) }
{
    let done = done_in(alloc, log)?;
    let ended = ended_in(alloc, log)?;
    Ok(is_listed(tid, done.as_slice()) && !is_listed(tid, ended.as_slice()))
}

/// Whether an id may be forgotten: its unit was received, and it is not forgotten.
fn may_forget(alloc: Global, log: &[Record], tid: Tid) -> Result<bool, OutOfMemory>
    ensures { IfOk result (λ may. may ≡ (is_among tid (received log.now) && not (is_listed tid (forgotten_in log.now)))) }
{
    let units = received(alloc, log)?;
    let forgotten = forgotten_in(alloc, log)?;
    Ok(is_among(tid, units.as_slice()) && !is_listed(tid, forgotten.as_slice()))
}

/// Whether a queue leads somewhere: an outbound one to another system, and an inbound one has destination 0.
fn is_destination(systems: u8, system: SystemNo, way: Way, destination: u8) -> bool
    ensures { result ≡ is_destination systems system way destination }
{
    match way {
        Way::Outgoing => destination >= 1 && destination <= systems && destination != system.get(),
        Way::Incoming => destination == 0,
    }
}

/// Whether a unit of this id is outstanding in this direction.
fn is_open_at<R: Rules>(
    alloc: Global,
    rules: &R,
    system: SystemNo,
    log: &[Record],
    way: Way,
    tid: Tid,
) -> Result<bool, OutOfMemory>
    requires known { system ≤ (R.meaning rules.now).systems }
    requires legal { IsLegal (R.meaning rules.now) system log.now }
    ensures { IfOk result (λ outstanding. outstanding ≡ is_open_at (R.meaning rules.now) system log.now way tid) }
{
    let (units, through) = match way {
        Way::Outgoing => (rules.units(alloc, system, log)?, done_in(alloc, log)?),
        Way::Incoming => (received(alloc, log)?, executed(alloc, log)?),
    };
    match unit_named(tid, units.as_slice()) {
        Some(unit) => Ok(!is_listed(unit.tid, through.as_slice())),
        None => Ok(false),
    }
}

/// Whether the record commits units.
pub(crate) fn is_commit(entry: &Record) -> bool
    ensures { result ≡ is_commit entry.now }
{
    matches!(entry, Record::Commit { .. } | Record::Dispatch)
}

/// Whether the record is one of an operator or of the application, or replaces the model.
pub(crate) fn is_operators(entry: &Record) -> bool
    ensures { result ≡ is_operators entry.now }
{
    matches!(
        entry,
        Record::Stop { .. }
            | Record::Start { .. }
            | Record::Retry { .. }
            | Record::Put { .. }
            | Record::App { .. }
            | Record::Repost { .. }
            | Record::Model { .. }
    )
}

/// Whether the record replaces the model.
pub(crate) fn is_model(entry: &Record) -> bool
    ensures { result ≡ is_model entry.now }
{
    matches!(entry, Record::Model { .. })
}

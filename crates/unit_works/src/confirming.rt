//! A unit that is done is confirmed.

ghost use Rattle.std.specs.Prelude.{◌≡◌, ◌&&◌, Some, [], true, false, IfOk, OnOk, if◌then◌else◌};
ghost use Rattle.std.specs.List.{IsDistinct};
ghost use Rattle.std.specs.Result.{is_ok};
ghost use Rattle.ale_base.specs.Tid.{TidOf, is_tid};
ghost use Rattle.unit_core.specs.declared.ale_unit.AleUnit.{AleUnit};
ghost use Rattle.unit_core.specs.declared.records.Record.TheVariants.{Ended};
ghost use Rattle.unit_core.specs.Filters.{done_in, ended_in};
ghost use Rattle.unit_core.specs.Queues.{is_listed};
ghost use Rattle.system_tables.specs.OfLog.{is_unconfirmed};
ghost use Rattle.trfc_protocol.specs.Worlds.{committed_unit, is_up, log_of};
ghost use Rattle.unit_landscape.specs.Calls.{is_forgotten};
ghost use Rattle.document_state.specs.Meaning.{model_meaning};
ghost use Rattle.unit_works.specs.Claims.{AreOrGone};
ghost use Rattle.unit_works.specs.Events.{is_confirmation, is_confirmed_under, is_confirming, is_sent_under};
ghost use Rattle.unit_works.specs.Finished.{finished_in};
ghost use Rattle.unit_works.specs.Trips.{Appended, confirmation, forgot, is_due, one_at};
ghost use Rattle.unit_works.specs.Worked.{HaveEnded, Worked};
ghost use Rattle.unit_works.specs.Trips.{IsDueOf};
ghost use Rattle.unit_works.specs.steps.Confirming.{Forgets, SentSo};
ghost use Rattle.unit_works.specs.Rounds.{VisitedSo};
ghost use Rattle.unit_works.specs.declared.letter.Letter.TheVariants.{Whole};
ghost use Rattle.unit_works.specs.Wires.{letters_left, next_letter};

use crate::letters::{is_confirmed_under, is_sent_under};
use crate::{Letter, Wires};
use ale_base::{OutOfMemory, Tid};
use ale_volumes::Volumes;
use landscape::Landscape;
use unit_landscape::{Closed, Confirmed};

/// Sends the confirmation of a unit that is done and not ended, and then the reply to it. Nothing changes where it is not done or ended,
/// or one of its systems is down, or no unit has this id. Where it is done and not ended and both its systems are up, the logs grow by
/// exactly the record of the receiver, unless it has forgotten the unit before, and that of the sender; where one of them falls as it is
/// to append its record, the records before that one stand, and none behind it. After an `Err` the confirmation may have come to the
/// receiver.
pub fn confirm<V: Volumes>(landscape: &mut Landscape<V>, tid: Tid) -> Result<(), OutOfMemory>
    ensures went { Worked V.disk landscape.old landscape.new is_confirmation (is_ok result) }
    ensures ended { OnOk result (HaveEnded V.disk landscape.old landscape.new 0) }
    ensures same { (is_up landscape.old.world tid.system && is_unconfirmed tid (log_of landscape.old.world tid.system)) ≡ false
        → landscape.new ≡ landscape.old }
    ensures none { (IsDueOf (model_meaning landscape.old.world.rules.systems) landscape.old.world tid → ⊥) → landscape.new ≡ landscape.old }
    ensures due { (unit : AleUnit) → committed_unit (model_meaning landscape.old.world.rules.systems) landscape.old.world tid ≡ Some unit
        → is_due landscape.old.world unit ≡ true
        → OnOk result (Appended landscape.old landscape.new (confirmation Whole (forgot landscape.old.world unit) unit)) }
{
    let _ = landscape.world();
    if !is_due(landscape, tid) {
        return Ok(());
    }
    confirm_done(landscape, tid)
}

/// Sends the confirmation of a unit that is done, and then the reply to it.
fn confirm_done<V: Volumes>(landscape: &mut Landscape<V>, tid: Tid) -> Result<(), OutOfMemory>
    requires done { is_listed tid (done_in (log_of landscape.old.world tid.system)) ≡ true }
    ensures went { Worked V.disk landscape.old landscape.new is_confirmation (is_ok result) }
    ensures ended { OnOk result (HaveEnded V.disk landscape.old landscape.new 0) }
    ensures due { (unit : AleUnit) → committed_unit (model_meaning landscape.old.world.rules.systems) landscape.old.world tid ≡ Some unit
        → is_due landscape.old.world unit ≡ true
        → OnOk result (Appended landscape.old landscape.new (confirmation Whole (forgot landscape.old.world unit) unit)) }
{
    let confirmed = send(landscape, tid)?;
    match confirmed {
        Confirmed::Forgotten | Confirmed::Already => {
            let _closed = end(landscape, tid)?;
            Ok(())
        }
        Confirmed::Down => Ok(()),
    }
}

/// The confirmation comes to the receiver.
fn send<V: Volumes>(landscape: &mut Landscape<V>, tid: Tid) -> Result<Confirmed, OutOfMemory>
    requires done { is_listed tid (done_in (log_of landscape.old.world tid.system)) ≡ true }
    ensures went { Worked V.disk landscape.old landscape.new is_confirmation (is_ok result) }
    ensures ended { OnOk result (HaveEnded V.disk landscape.old landscape.new 0) }
    ensures sent { (unit : AleUnit) → committed_unit (model_meaning landscape.old.world.rules.systems) landscape.old.world tid ≡ Some unit
        → is_up landscape.old.world unit.receiver ≡ true
        → IfOk result (SentSo landscape.old landscape.new tid unit) }
    ensures forgets { IfOk result (Forgets (model_meaning landscape.new.world.rules.systems) landscape.new.world tid) }
{
    let _ = landscape.world();
    landscape.confirm(tid)
}

/// The reply to the confirmation comes to the sender.
fn end<V: Volumes>(landscape: &mut Landscape<V>, tid: Tid) -> Result<Closed, OutOfMemory>
    requires forgotten { is_forgotten (model_meaning landscape.old.world.rules.systems) landscape.old.world tid ≡ true }
    ensures went { Worked V.disk landscape.old landscape.new is_confirmation (is_ok result) }
    ensures ended { OnOk result (HaveEnded V.disk landscape.old landscape.new 0) }
    ensures grew { is_up landscape.old.world tid.system ≡ true → is_listed tid (ended_in (log_of landscape.old.world tid.system)) ≡ false
        → OnOk result (Appended landscape.old landscape.new (one_at tid.system (Ended tid))) }
{
    let _ = landscape.world();
    landscape.ended(tid)
}

/// Confirms a unit under a letter: nothing is sent where its confirmation is lost.
pub(crate) fn confirm_under<V: Volumes>(
    landscape: &mut Landscape<V>,
    tid: Tid,
    letter: Letter,
) -> Result<(), OutOfMemory>
    ensures went { Worked V.disk landscape.old landscape.new (is_confirming letter) (is_ok result) }
    ensures ended { OnOk result (HaveEnded V.disk landscape.old landscape.new 0) }
    ensures same { (is_up landscape.old.world tid.system && is_unconfirmed tid (log_of landscape.old.world tid.system)) ≡ false
        → landscape.new ≡ landscape.old }
    ensures due { (unit : AleUnit) → committed_unit (model_meaning landscape.old.world.rules.systems) landscape.old.world tid ≡ Some unit
        → is_due landscape.old.world unit ≡ true
        → OnOk result (Appended landscape.old landscape.new
        (if is_confirmed_under letter then confirmation Whole (forgot landscape.old.world unit) unit else [])) }
{
    if !is_confirmed_under(letter) {
        return Ok(());
    }
    confirm(landscape, tid)
}

/// Confirms units that are done and not ended, each once, under its next letter.
pub(crate) fn confirm_each<V: Volumes>(
    landscape: &mut Landscape<V>,
    wires: &mut Wires,
    tids: &[Tid],
) -> Result<(), OutOfMemory>
    requires apart { IsDistinct is_tid tids.now }
    ensures visited { VisitedSo V.disk landscape.old wires.old landscape.new wires.new (λ (other : TidOf). is_listed other tids.now ≡ true) result }
    ensures claims { OnOk result (AreOrGone landscape.old.world landscape.new.world landscape.old.world.claims) }
{
    for tid in tids {
        confirm_due(landscape, wires, *tid)?;
    }
    Ok(())
}

/// Confirms a unit under its next letter, where it is done and not ended and both its systems are up: nothing is sent where its
/// confirmation is lost. It takes no letter where it is not, and then nothing has changed.
fn confirm_due<V: Volumes>(
    landscape: &mut Landscape<V>,
    wires: &mut Wires,
    tid: Tid,
) -> Result<(), OutOfMemory>
    ensures worked { VisitedSo V.disk landscape.old wires.old landscape.new wires.new (λ (other : TidOf). other ≡ tid) result }
    ensures lost { is_sent_under (next_letter (letters_left wires.old tid)) ≡ false → landscape.new ≡ landscape.old }
    ensures claims { OnOk result (AreOrGone landscape.old.world landscape.new.world landscape.old.world.claims) }
{
    let _ = landscape.world();
    if !is_due(landscape, tid) {
        return Ok(());
    }
    let letter = wires.take(tid);
    confirm_sent(landscape, tid, letter)
}

/// Whether a unit is done and not ended, and both its systems are up.
fn is_due<V: Volumes>(landscape: &Landscape<V>, tid: Tid) -> bool
    ensures sender { result ≡ true → (is_up landscape.now.world tid.system && is_unconfirmed tid (log_of landscape.now.world tid.system)) ≡ true }
    ensures due { result ≡ true → IsDueOf (model_meaning landscape.now.world.rules.systems) landscape.now.world tid }
    ensures other { result ≡ false → (unit : AleUnit)
        → committed_unit (model_meaning landscape.now.world.rules.systems) landscape.now.world tid ≡ Some unit
        → is_due landscape.now.world unit ≡ true → ⊥ }
{
    let _ = landscape.world();
    match landscape.unit(tid) {
        Some(unit) => landscape.is_up(unit.receiver) && landscape.is_unconfirmed(tid),
        None => false,
    }
}

/// Confirms a unit, unless its confirmation is lost under a letter.
fn confirm_sent<V: Volumes>(
    landscape: &mut Landscape<V>,
    tid: Tid,
    letter: Letter,
) -> Result<(), OutOfMemory>
    ensures went { Worked V.disk landscape.old landscape.new is_confirmation (is_ok result) }
    ensures ended { OnOk result (HaveEnded V.disk landscape.old landscape.new 0) }
    ensures lost { is_sent_under letter ≡ false → landscape.new ≡ landscape.old }
    ensures due { (unit : AleUnit) → committed_unit (model_meaning landscape.old.world.rules.systems) landscape.old.world tid ≡ Some unit
        → is_due landscape.old.world unit ≡ true
        → OnOk result (Appended landscape.old landscape.new (confirmation letter (forgot landscape.old.world unit) unit)) }
{
    if !is_sent_under(letter) {
        return Ok(());
    }
    confirm(landscape, tid)
}

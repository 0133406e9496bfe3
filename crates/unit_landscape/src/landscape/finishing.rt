//! The work of a claim ends at the unit's receiver.

ghost use Rattle.std.specs.Prelude.{◌≡◌};
ghost use Rattle.unit_landscape.specs.Appending.{finished_of};

use super::UnitLandscape;
use crate::appending::{Appended, append};
use crate::{Finished, InClaim, Receipt, WorkEnd};
use ale_base::OutOfMemory;
use ale_volumes::Volumes;
use system_tables::Application;
use trfc_protocol::{Held, HeldKind, Rules};
use unit_core::Record;

impl<R: Rules, A: Application, V: Volumes> UnitLandscape<R, A, V> {
    ghost use Rattle.std.specs.Prelude.{◌≡◌, ◌-◌, Some, None, true, false, IfOk, IfSome, IsNone, slice_get};
    ghost use Rattle.trfc_protocol.specs.declared.event.Event.TheVariants as event;
    ghost use Rattle.trfc_protocol.specs.declared.held.HeldKind.TheVariants.{Out};
    ghost use Rattle.trfc_protocol.specs.Legal.{is_commit};
    ghost use Rattle.trfc_protocol.specs.Worlds.{claim_of, is_kind, log_of};
    ghost use Rattle.trfc_protocol.specs.RecordOf.{Writing, record_of};
    ghost use Rattle.system_tables.specs.Tables.{TablesOf};
    ghost use Rattle.unit_landscape.specs.Writes.{DiskAs, Appends};
    ghost use Rattle.unit_landscape.specs.Calls.{FinishedAs, finish_event, stands_in, is_offered_function};
    ghost use Rattle.unit_landscape.specs.Appending.{HoldsIn};

    /// The work of a claim ends: the unit is executed where its receiver offers its function, as is handed in, and fails otherwise. What
    /// was made for the application goes with the record of the execution.
    ///
    /// `Stale` comes exactly where the claim does not stand, and then nothing has changed. After `OutOfMemory` nothing has changed,
    /// but perhaps what lies behind the log on the volume, or the record stands in its log and the system is down behind it.
    pub fn finish(
        &mut self,
        claim: InClaim,
        offered: bool,
        extra: A::Extra,
    ) -> Result<Finished, WorkEnd>
        requires offered { stands_in self.old.world claim ≡ true
            → offered ≡ is_offered_function (R.meaning self.old.world.rules) self.old.world claim.tid }
        requires goes { stands_in self.old.world claim ≡ true → (it : Writing)
            → record_of (R.meaning self.old.world.rules) self.old.world (event.Finish claim.number) ≡ Some it
            → (its : TablesOf A) → slice_get self.old.tables (it.system - 1) ≡ Some its → A.goes_with its.application (log_of self.old.world it.system) it.next extra }
        ensures ends { FinishedAs (R.meaning self.old.world.rules) V.disk self.old self.new claim result }
        ensures disk { DiskAs V.disk self.old self.new
            (record_of (R.meaning self.old.world.rules) self.old.world (finish_event (R.meaning self.old.world.rules) self.old.world claim)) }
    {
        let _ = self.kept.world();
        let Some(held) = self.held_in(&claim) else {
            return Err(WorkEnd::Stale);
        };
        if offered {
            self.execute(claim, held, extra)
        } else {
            self.fail(claim, held)
        }
    }

    /// The claim to execute a unit, where it stands.
    fn held_in(&self, claim: &InClaim) -> Option<Held>
        ensures some { IfSome result (HoldsIn self.now.world claim.now) }
        ensures none { IsNone result → stands_in self.now.world claim.now ≡ false }
    {
        let held = *self.kept.world().claim_of(claim.number)?;
        if held.kind == HeldKind::Out || held.tid != claim.tid {
            return None;
        }
        Some(held)
    }

    /// A unit is executed.
    fn execute(&mut self, claim: InClaim, held: Held, extra: A::Extra) -> Result<Finished, WorkEnd>
        requires holds { HoldsIn self.old.world claim held }
        requires offers { is_offered_function (R.meaning self.old.world.rules) self.old.world claim.tid ≡ true }
        requires goes { (it : Writing) → record_of (R.meaning self.old.world.rules) self.old.world (event.Finish claim.number) ≡ Some it
            → (its : TablesOf A) → slice_get self.old.tables (it.system - 1) ≡ Some its → A.goes_with its.application (log_of self.old.world it.system) it.next extra }
        ensures ends { FinishedAs (R.meaning self.old.world.rules) V.disk self.old self.new claim result }
        ensures disk { DiskAs V.disk self.old self.new
            (record_of (R.meaning self.old.world.rules) self.old.world (finish_event (R.meaning self.old.world.rules) self.old.world claim)) }
    {
        let Held {
            number,
            tid,
            system,
            ..
        } = held;
        let _ = self.kept.world();
        let next = match self.work_record(held) {
            Ok(next) => next,
            Err(_) => return Err(WorkEnd::OutOfMemory),
        };
        let appended = append(&mut self.kept, system, next, Some(number), extra);
        finished(appended, Finished::Executed(Receipt { tid }))
    }

    /// The record by which the unit of a claim is executed.
    fn work_record(&self, held: Held) -> Result<Record, OutOfMemory>
        requires found { claim_of held.number self.now.world.claims ≡ Some held }
        requires kind { is_kind held.kind Out ≡ false }
        requires offers { is_offered_function (R.meaning self.now.world.rules) self.now.world held.tid ≡ true }
        ensures appends { IfOk result (λ next. Appends (R.meaning self.now.world.rules) self.now.world held.system next (Some held.number) (event.Finish held.number)) }
        ensures plain { IfOk result (λ next. is_commit next ≡ false) }
    {
        let _ = self.world();
        match held.kind {
            HeldKind::In => Ok(Record::Execute { tid: held.tid }),
            HeldKind::Direct => {
                let Some(unit) = self.unit(held.tid) else {
                    // A claim is one on a unit that was committed.
                    unreachable!()
                };
                Ok(Record::Direct {
                    unit: unit.clone()?,
                })
            }
            // The claim is one to execute.
            HeldKind::Out => unreachable!(),
        }
    }

    /// A unit fails, since its receiver does not offer its function.
    fn fail(&mut self, claim: InClaim, held: Held) -> Result<Finished, WorkEnd>
        requires holds { HoldsIn self.old.world claim held }
        requires offers { is_offered_function (R.meaning self.old.world.rules) self.old.world claim.tid ≡ false }
        ensures ends { FinishedAs (R.meaning self.old.world.rules) V.disk self.old self.new claim result }
        ensures disk { DiskAs V.disk self.old self.new
            (record_of (R.meaning self.old.world.rules) self.old.world (finish_event (R.meaning self.old.world.rules) self.old.world claim)) }
    {
        let next = Record::Fail { tid: held.tid };
        let appended = append(
            &mut self.kept,
            held.system,
            next,
            Some(held.number),
            A::nothing(),
        );
        finished(appended, Finished::Failed)
    }
}

/// How the work of a claim ended, by how its record was appended: so where it stands in its log.
fn finished(appended: Result<Appended, OutOfMemory>, written: Finished) -> Result<Finished, WorkEnd>
    ensures { result ≡ finished_of written appended }
{
    match appended {
        Ok(Appended::Written) => Ok(written),
        Ok(Appended::Fallen) => Ok(Finished::Down),
        Err(_) => Err(WorkEnd::OutOfMemory),
    }
}

//! Units are executed: those of a claim, and those whose request comes late.

ghost use Rattle.std.specs.Prelude.{◌≡◌};

use super::Landscape;
use crate::commands::late_refused;
use ale_base::{Items, OutOfMemory, Tid};
use ale_volumes::Volumes;
use document_state::Made;
use inbound_post::{DocPosting, Prepared};
use status_log::Refusal;
use std::sync::Arc;
use trfc_protocol::HeldKind;
use unit_landscape::{Finished, InClaim, Late, LateEnd, WorkEnd};

impl<V: Volumes> Landscape<V> {
    ghost use Rattle.std.specs.Prelude.{◌≡◌, Some, true, false, IfOk, IfSome};
    ghost use Rattle.unit_core.specs.declared.ale_unit.AleUnit.{AleUnit};
    ghost use Rattle.unit_core.specs.declared.records.Record.TheVariants as log;
    ghost use Rattle.inbound_post.specs.declared.prepared.DocPosting.{DocPosting as PostingOf};
    ghost use Rattle.trfc_protocol.specs.declared.answer.Answer.TheVariants as answer;
    ghost use Rattle.trfc_protocol.specs.declared.event.Event.TheVariants as event;
    ghost use Rattle.trfc_protocol.specs.declared.held.HeldKind.TheVariants.{Direct};
    ghost use Rattle.trfc_protocol.specs.Offered.{answer_to};
    ghost use Rattle.trfc_protocol.specs.RecordOf.{Writing, record_of};
    ghost use Rattle.trfc_protocol.specs.Worlds.{committed_unit, is_claimed, is_up, log_of, offers_now};
    ghost use Rattle.unit_landscape.specs.Calls.{FinishedAs, finish_event, is_offered_function, stands_in};
    ghost use Rattle.unit_landscape.specs.Late.{LateAs, late_record};
    ghost use Rattle.unit_landscape.specs.Writes.{DiskAs};
    ghost use Rattle.document_state.specs.Made.{GoesWith};
    ghost use Rattle.document_state.specs.OfLog.{postings_behind};
    ghost use Rattle.document_state.specs.Meaning.{model_meaning};
    ghost use Rattle.landscape.specs.Crashes.{LeavesSoundLogs};
    ghost use Rattle.landscape.specs.Working.{CameOrRefused, IsExecutedWith, IsKindOf, IsMadeFor, IsPreparedFor};

    /// The work of a claim ends: the unit is executed where its receiver offers its function, with what was prepared of its documents,
    /// and fails otherwise.
    ///
    /// `Stale` comes exactly where the claim does not stand, and then nothing has changed. After `OutOfMemory` nothing has changed,
    /// but perhaps what lies behind the log on the volume, or the record stands in its log and the system is down behind it.
    pub fn finish(&mut self, claim: InClaim, prepared: Prepared) -> Result<Finished, WorkEnd>
        requires prepared { IsPreparedFor self.old.world claim.tid prepared.postings }
        ensures ends { FinishedAs (model_meaning self.old.world.rules.systems) V.disk self.old self.new claim result }
        ensures disk { DiskAs V.disk self.old self.new
            (record_of (model_meaning self.old.world.rules.systems) self.old.world (finish_event (model_meaning self.old.world.rules.systems) self.old.world claim)) }
        ensures sound { LeavesSoundLogs V.disk self.old self.new }
    {
        let _ = self.units.world();
        let Some(kind) = self.kind_of(&claim) else {
            return Err(WorkEnd::Stale);
        };
        let Prepared { postings, .. } = prepared;
        let offered = self.offers_unit(claim.tid());
        match self.made_for(kind, claim.tid(), postings) {
            Ok(made) => self.units.finish(claim, offered, made),
            Err(_) => Err(WorkEnd::OutOfMemory),
        }
    }

    /// The kind of a claim to execute a unit. None exactly where the claim does not stand.
    fn kind_of(&self, claim: &InClaim) -> Option<HeldKind>
        ensures { IsKindOf self.now.world claim.now result }
    {
        let held = self.units.world().claim_of(claim.number())?;
        if held.kind == HeldKind::Out || held.tid != claim.tid() {
            return None;
        }
        Some(held.kind)
    }

    /// Whether the receiver of the unit of an id, which is up, offers its function.
    fn offers_unit(&self, tid: Tid) -> bool
        ensures { IfSome (committed_unit (model_meaning self.now.world.rules.systems) self.now.world tid)
            (λ unit. is_up self.now.world unit.receiver ≡ true → result ≡ offers_now (model_meaning self.now.world.rules.systems) self.now.world unit.receiver unit.function) }
    {
        match self.unit(tid) {
            None => false,
            Some(unit) => self.is_offered(unit.receiver, &unit.function),
        }
    }

    /// What goes with the record of an execution.
    fn made_for(
        &self,
        kind: HeldKind,
        tid: Tid,
        postings: Items<DocPosting>,
    ) -> Result<Made, OutOfMemory>
        ensures { IfOk result (IsMadeFor self.now.world kind tid postings) }
    {
        match kind {
            HeldKind::Direct | HeldKind::Out => Ok(Made::Postings(postings)),
            HeldKind::In => self.made_of(tid, postings),
        }
    }

    /// What goes with the execution of the unit of an id that was taken in.
    fn made_of(&self, tid: Tid, postings: Items<DocPosting>) -> Result<Made, OutOfMemory>
        ensures { IfOk result (IsExecutedWith self.now.world tid postings) }
    {
        let Some(unit) = self.unit(tid) else {
            return Ok(Made::Nothing);
        };
        let unit = Arc::new(self.alloc, unit.clone()?)?;
        Ok(Made::Executed { unit, postings })
    }

    /// An earlier request of a unit comes to its receiver now: the unit arrives, and one that is to run at once is run. Nothing is told
    /// to its sender. There is no claim on a run of it.
    ///
    /// `N6` comes where the landscape has no system of the id; `N2` else where the sender is down; `N6` else where it committed no such
    /// unit; `N7` else where the unit is not marked CPICERR since its last Retry, or is done; `N10` else where the receiver's journal is
    /// full: the receiver stays up. Every refusal leaves all as it was. After `OutOfMemory` nothing has changed, but perhaps what lies
    /// behind the log on the volume, or the record stands in its log and the receiver is down behind it.
    pub fn late(&mut self, tid: Tid) -> Result<Late, Refusal>
        requires alone { is_claimed Direct tid self.old.world.claims ≡ false }
        ensures ends { CameOrRefused V.disk self.old self.new tid result }
        ensures disk { DiskAs V.disk self.old self.new
            (late_record (model_meaning self.old.world.rules.systems) self.old.world tid) }
        ensures sound { LeavesSoundLogs V.disk self.old self.new }
    {
        late_refused(self.late_ended(tid))
    }

    /// A late request comes, or the reason is given why none may.
    fn late_ended(&mut self, tid: Tid) -> Result<Late, LateEnd>
        requires alone { is_claimed Direct tid self.old.world.claims ≡ false }
        ensures ends { LateAs (model_meaning self.old.world.rules.systems) V.disk self.old self.new tid result }
        ensures disk { DiskAs V.disk self.old self.new
            (late_record (model_meaning self.old.world.rules.systems) self.old.world tid) }
        ensures sound { LeavesSoundLogs V.disk self.old self.new }
    {
        let _ = self.units.world();
        let offered = self.offers_unit(tid);
        match self.made_late(tid) {
            Ok(made) => self.units.late(tid, offered, made),
            Err(_) => Err(LateEnd::OutOfMemory),
        }
    }

    /// What goes with the run of a unit that comes late, where its receiver is up.
    fn made_late(&self, tid: Tid) -> Result<Made, OutOfMemory>
        ensures { (unit : AleUnit) → committed_unit (model_meaning self.now.world.rules.systems) self.now.world tid ≡ Some unit → is_up self.now.world unit.receiver ≡ true
            → IfOk result (GoesWith (log_of self.now.world unit.receiver) (log.Direct unit)) }
    {
        let Some(unit) = self.unit(tid) else {
            return Ok(Made::Nothing);
        };
        match self.tables(unit.receiver) {
            None => Ok(Made::Nothing),
            Some(tables) => {
                let postings = tables.postings(self.alloc, unit.receiver, unit)?;
                Ok(Made::Postings(postings))
            }
        }
    }
}

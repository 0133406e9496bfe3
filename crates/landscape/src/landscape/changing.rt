//! Commands that change objects, and pass documents to the application again.

ghost use Rattle.std.specs.Prelude.{◌≡◌};

use super::Landscape;
use crate::commands::{ended, last_of};
use crate::passing::{app, repost};
use crate::putting::{pointers_noted, put};
use crate::wanted::Changes;
use ale_base::{Change, DocNum, OutOfMemory, SystemNo};
use ale_volumes::Volumes;
use document_state::Made;
use status_log::{Refusal, Status};

impl<V: Volumes> Landscape<V> {
    ghost use Rattle.std.specs.Prelude.{◌≡◌, ◌⊎◌, true, IfOk};
    ghost use Rattle.trfc_protocol.specs.Worlds.{is_up, log_of};
    ghost use Rattle.unit_landscape.specs.LogAnswers.{KeepsVolumes};
    ghost use Rattle.unit_landscape.specs.Writes.{WritesOnly};
    ghost use Rattle.unit_landscape.specs.Appending.{at};
    ghost use Rattle.document_state.specs.declared.made.Made.TheVariants as made;
    ghost use Rattle.landscape.specs.Asked.{asked_put, asked_app, asked_repost, pointers_noted};
    ghost use Rattle.landscape.specs.steps.Judged.{is_applications};
    ghost use Rattle.landscape.specs.Crashes.{LeavesSoundLogs};
    ghost use Rattle.landscape.specs.Carried.{CarriedAs, DiskAsked, asked_at, operator_event, status_at};
    ghost use Rattle.landscape.specs.steps.Ready.{IsReady, ReadyChanges, EndedAs};

    /// Gives fields of an object values. It answers how many change pointers are noted.
    ///
    /// `N2` comes exactly where the system is down; `N12` else where the kind, the key, a field or a value is none that the model in
    /// force allows; `N10` else where the journal is full.
    pub fn put(&mut self, system: SystemNo, change: &Change) -> Result<u64, Refusal>
        ensures ends { CarriedAs V.disk self.old self.new system (operator_event system) (asked_at self.old.world system (λ log. asked_put log change.now))
            (λ pointers. pointers ≡ pointers_noted (log_of self.old.world system) change.now) result }
        ensures disk { DiskAsked V.disk self.old self.new system (asked_at self.old.world system (λ log. asked_put log change.now)) }
        ensures sound { LeavesSoundLogs V.disk self.old self.new }
    {
        let wanted = self.judged_put(system, change)?;
        let pointers = self.pointers_noted(system, change)?;
        self.operate_wanted(system, wanted)?;
        Ok(pointers)
    }

    /// Posts an inbound document that waits for the application. It answers the last status of the document then.
    ///
    /// `N2` comes exactly where the system is down; `N3` else where there is no such document; `N8` else where its last status is not
    /// 64; `N10` else where the journal is full.
    pub fn app(&mut self, system: SystemNo, doc: DocNum) -> Result<Status, Refusal>
        ensures ends { CarriedAs V.disk self.old self.new system (operator_event system) (asked_at self.old.world system (λ log. asked_app log doc.0))
            (λ status. status ≡ status_at self.new.world system doc.0) result }
        ensures disk { DiskAsked V.disk self.old self.new system (asked_at self.old.world system (λ log. asked_app log doc.0)) }
        ensures sound { LeavesSoundLogs V.disk self.old self.new }
    {
        let wanted = self.judged_app(system, doc)?;
        self.operate_wanted(system, wanted)?;
        Ok(self.status_at(system, doc))
    }

    /// Posts an inbound document again that was not posted. It answers the last status of the document then.
    ///
    /// `N2` comes exactly where the system is down; `N3` else where there is no such document; `N8` else where its last status is not
    /// 51; `N10` else where the journal is full.
    pub fn repost(&mut self, system: SystemNo, doc: DocNum) -> Result<Status, Refusal>
        ensures ends { CarriedAs V.disk self.old self.new system (operator_event system) (asked_at self.old.world system (λ log. asked_repost log doc.0))
            (λ status. status ≡ status_at self.new.world system doc.0) result }
        ensures disk { DiskAsked V.disk self.old self.new system (asked_at self.old.world system (λ log. asked_repost log doc.0)) }
        ensures sound { LeavesSoundLogs V.disk self.old self.new }
    {
        let wanted = self.judged_repost(system, doc)?;
        self.operate_wanted(system, wanted)?;
        Ok(self.status_at(system, doc))
    }

    /// What `put` asks for.
    fn judged_put(&self, system: SystemNo, change: &Change) -> Result<Changes, Refusal>
        ensures judged { ReadyChanges self.now.world system (asked_at self.now.world system (λ log. asked_put log change.now)) result }
        ensures sound { LeavesSoundLogs V.disk self.now self.now }
    {
        let tables = self.up(system)?;
        put(tables, change)
    }

    /// How many change pointers `put` notes; none where the system is down.
    fn pointers_noted(&self, system: SystemNo, change: &Change) -> Result<u64, OutOfMemory>
        ensures { is_up self.now.world system ≡ true → IfOk result (λ count. count ≡ pointers_noted (log_of self.now.world system) change.now) }
    {
        match self.tables(system) {
            None => Ok(0),
            Some(tables) => pointers_noted(self.alloc, tables, change),
        }
    }

    /// What `app` asks for.
    fn judged_app(&self, system: SystemNo, doc: DocNum) -> Result<Changes, Refusal>
        ensures judged { ReadyChanges self.now.world system (asked_at self.now.world system (λ log. asked_app log doc.0)) result }
        ensures sound { LeavesSoundLogs V.disk self.now self.now }
    {
        let tables = self.up(system)?;
        app(tables, doc)
    }

    /// What `repost` asks for.
    fn judged_repost(&self, system: SystemNo, doc: DocNum) -> Result<Changes, Refusal>
        ensures judged { ReadyChanges self.now.world system (asked_at self.now.world system (λ log. asked_repost log doc.0)) result }
        ensures sound { LeavesSoundLogs V.disk self.now self.now }
    {
        let tables = self.up(system)?;
        repost(tables, doc)
    }

    /// The last status of an inbound document of a system.
    fn status_at(&self, system: SystemNo, doc: DocNum) -> Status
        ensures { result ≡ status_at self.now.world system doc.0 }
    {
        match self.tables(system) {
            None => Status::plain(0),
            Some(tables) => last_of(tables.inbound().statuses(doc)),
        }
    }

    /// Appends a record that changes the application.
    fn operate_wanted(&mut self, system: SystemNo, wanted: Changes) -> Result<(), Refusal>
        requires ready { IsReady self.old.world system is_applications wanted.next made.Nothing }
        ensures done { EndedAs V.disk self.old self.new system (operator_event system) wanted.next result }
        ensures disk { KeepsVolumes self.old self.new ⊎ WritesOnly V.disk self.old self.new (at system wanted.next) }
        ensures sound { LeavesSoundLogs V.disk self.old self.new }
    {
        let _ = self.units.world();
        let Changes { next } = wanted;
        ended(self.units.operate(system, next, Made::Nothing))
    }
}

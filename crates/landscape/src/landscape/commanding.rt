//! Commands: each appends the record that it asks for, or is refused.

ghost use Rattle.std.specs.Prelude.{◌≡◌};
ghost use Rattle.unit_core.specs.declared.records.Record.TheVariants as log;

use super::Landscape;
use crate::commands::{counts_of, ended, units_of};
use crate::sending::{dispatch, gather, send};
use crate::wanted::Commits;
use crate::{Gathered, Sent};
use ale_base::SystemNo;
use ale_volumes::Volumes;
use application_rules::MOST_SEGMENTS;
use document_state::Made;
use outbound_build::Added;
use status_log::Refusal;
use unit_core::{RawUnitDoc, Record};

impl<V: Volumes> Landscape<V> {
    ghost use Rattle.std.specs.Prelude.{◌≡◌, ◌≤◌, ◌⊎◌, Some, Ok, true, length, IfOk};
    ghost use Rattle.trfc_protocol.specs.declared.event.Event.TheVariants as event;
    ghost use Rattle.trfc_protocol.specs.Legal.{is_commit};
    ghost use Rattle.trfc_protocol.specs.Worlds.{log_of};
    ghost use Rattle.unit_landscape.specs.LogAnswers.{KeepsVolumes};
    ghost use Rattle.unit_landscape.specs.Writes.{WritesOnly};
    ghost use Rattle.unit_landscape.specs.Appending.{at};
    ghost use Rattle.document_state.specs.declared.made.Made.TheVariants as made;
    ghost use Rattle.landscape.specs.Asked.{asked_send, asked_gather, asked_dispatch};
    ghost use Rattle.landscape.specs.Crashes.{LeavesSoundLogs};
    ghost use Rattle.landscape.specs.Carried.{CarriedAs, DiskAsked, asked_at, counts_asked, counts_of, sent_counts};
    ghost use Rattle.landscape.specs.steps.Ready.{IsReady, ReadyCommits, ReadyCommitsOrNone, EndedAs};

    /// Sends a master, of at most `MOST_SEGMENTS` segments: it is committed, with what each receiver is sent that is entitled to it, in
    /// units or as documents that wait to be dispatched.
    ///
    /// `N2` comes exactly where the system is down; `N12` else where MESTYP or IDOCTYP is refused; `N4` else where its data records are
    /// no document of its type; `N11` else where there would be over 65,536 units; `N10` else where the journal is full.
    pub fn send(&mut self, system: SystemNo, master: &RawUnitDoc) -> Result<Sent, Refusal>
        requires short { length master.now.segments ≤ MOST_SEGMENTS }
        ensures ends { CarriedAs V.disk self.old self.new system (event.Commit system) (asked_at self.old.world system (λ log. asked_send log master.now))
            (λ sent. sent ≡ sent_counts (counts_asked (log_of self.old.world system) (asked_at self.old.world system (λ log. asked_send log master.now)))) result }
        ensures disk { DiskAsked V.disk self.old self.new system (asked_at self.old.world system (λ log. asked_send log master.now)) }
        ensures sound { LeavesSoundLogs V.disk self.old self.new }
    {
        let wanted = self.judged_send(system, master)?;
        let counts = self.commit(system, wanted)?;
        Ok(counts.sent())
    }

    /// Gathers the objects that wait for the message type of a name, or of the one that a reduced one reduces: their masters are
    /// committed together. With no object that waits nothing is appended.
    ///
    /// `N2` comes exactly where the system is down; `N12` else where the name stands for no message type; `N11` else where there would
    /// be over 65,536 units; `N10` else where the journal is full.
    pub fn gather(&mut self, system: SystemNo, name: &[u8]) -> Result<Gathered, Refusal>
        ensures ends { CarriedAs V.disk self.old self.new system (event.Commit system) (asked_at self.old.world system (λ log. asked_gather log name.now))
            (λ counts. counts ≡ counts_asked (log_of self.old.world system) (asked_at self.old.world system (λ log. asked_gather log name.now))) result }
        ensures disk { DiskAsked V.disk self.old self.new system (asked_at self.old.world system (λ log. asked_gather log name.now)) }
        ensures sound { LeavesSoundLogs V.disk self.old self.new }
    {
        match self.judged_gather(system, name)? {
            None => Ok(Gathered::none()),
            Some(wanted) => self.commit(system, wanted),
        }
    }

    /// Dispatches what waits: units are made of it. With nothing waiting nothing is appended.
    ///
    /// `N2` comes exactly where the system is down; `N11` else where there would be over 65,536 units; `N10` else where the journal is
    /// full.
    pub fn dispatch(&mut self, system: SystemNo) -> Result<u64, Refusal>
        ensures ends { CarriedAs V.disk self.old self.new system (event.Commit system) (asked_at self.old.world system (λ log. asked_dispatch log))
            (λ units. units ≡ (counts_asked (log_of self.old.world system) (asked_at self.old.world system (λ log. asked_dispatch log))).units) result }
        ensures disk { DiskAsked V.disk self.old self.new system (asked_at self.old.world system (λ log. asked_dispatch log)) }
        ensures sound { LeavesSoundLogs V.disk self.old self.new }
    {
        let Some(wanted) = self.judged_dispatch(system)? else {
            return Ok(0);
        };
        let counts = self.commit(system, wanted)?;
        Ok(counts.units)
    }

    /// What `send` asks for.
    fn judged_send(&self, system: SystemNo, master: &RawUnitDoc) -> Result<Commits, Refusal>
        requires short { length master.now.segments ≤ MOST_SEGMENTS }
        ensures judged { ReadyCommits self.now.world system (asked_at self.now.world system (λ log. asked_send log master.now)) result }
        ensures sound { LeavesSoundLogs V.disk self.now self.now }
    {
        let tables = self.up(system)?;
        send(self.alloc, tables, system, master)
    }

    /// What `gather` asks for.
    fn judged_gather(&self, system: SystemNo, name: &[u8]) -> Result<Option<Commits>, Refusal>
        ensures judged { ReadyCommitsOrNone self.now.world system (asked_at self.now.world system (λ log. asked_gather log name.now)) result }
        ensures sound { LeavesSoundLogs V.disk self.now self.now }
    {
        let tables = self.up(system)?;
        gather(self.alloc, tables, system, name)
    }

    /// What `dispatch` asks for.
    fn judged_dispatch(&self, system: SystemNo) -> Result<Option<Commits>, Refusal>
        ensures judged { ReadyCommitsOrNone self.now.world system (asked_at self.now.world system (λ log. asked_dispatch log)) result }
        ensures sound { LeavesSoundLogs V.disk self.now self.now }
    {
        let tables = self.up(system)?;
        dispatch(self.alloc, tables, system)
    }

    /// Appends a record that commits documents. It answers how many masters, documents and units are made.
    fn commit(&mut self, system: SystemNo, wanted: Commits) -> Result<Gathered, Refusal>
        requires ready { IsReady self.old.world system is_commit wanted.next (made.Sent wanted.added) }
        ensures done { EndedAs V.disk self.old self.new system (event.Commit system) wanted.next result }
        ensures counts { IfOk result (λ counts. counts ≡ counts_of (log_of self.old.world system) wanted.next) }
        ensures disk { KeepsVolumes self.old self.new ⊎ WritesOnly V.disk self.old self.new (at system wanted.next) }
        ensures sound { LeavesSoundLogs V.disk self.old self.new }
    {
        let counts = counts_of(&wanted);
        let Commits { next, added } = wanted;
        self.commit_added(system, next, added)?;
        Ok(counts)
    }

    /// Appends a record that commits documents, with what it adds.
    fn commit_added(&mut self, system: SystemNo, next: Record, added: Added) -> Result<(), Refusal>
        requires ready { IsReady self.old.world system is_commit next (made.Sent added) }
        ensures done { EndedAs V.disk self.old self.new system (event.Commit system) next result }
        ensures disk { KeepsVolumes self.old self.new ⊎ WritesOnly V.disk self.old self.new (at system next) }
        ensures sound { LeavesSoundLogs V.disk self.old self.new }
    {
        let _ = self.units.world();
        match units_of(self.alloc, &added) {
            Err(_) => Err(Refusal::OutOfMemory),
            Ok(units) => ended(
                self.units
                    .commit(system, next, units.as_slice(), Made::Sent(added)),
            ),
        }
    }
}

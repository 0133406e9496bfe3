//! The world with its tables, journals and volumes, and what changes all of them.

ghost use Rattle.std.specs.Prelude.{◌≡◌};

mod asking;
mod reopening;

use crate::adding::add;
use crate::cause::tell;
use crate::counted::{Adds, Counted};
use crate::{AppendEnd, Cause, WorldTables};
use ale_base::{OutOfMemory, SystemNo, Tid, Way};
use ale_volumes::Volumes;
use std::alloc::Global;
use std::marker::Model;
use system_tables::Application;
use trfc_protocol::{Rules, World};
use unit_core::{AleUnit, Record};
use unit_journal::SystemJournals;

/// A world, the tables of its systems, their journals, and the volumes; and why each system is down, if it is.
#[derive(Drop)]
pub struct KeptWorld<R: Rules, A: Application, V: Volumes> {
    alloc: Global,
    both: WorldTables<R, A>,
    journals: SystemJournals,
    vols: V,
    causes: [Cause; 16],
    // No contract sees the counts but by what is asked of them.
    counted: Counted,
}

impl<R: Rules, A: Application, V: Volumes> Model for KeptWorld<R, A, V> {
    ghost use Rattle.unit_landscape.specs.KeptWorlds.{KeptOf, IsRoom};

    ghost Value = { KeptOf R A V };

    ghost view = { λ kept. record {
      world = kept.both.world;
      tables = kept.both.tables;
      journals = kept.journals;
      vols = kept.vols;
      causes = kept.causes;
    } };

    ghost invariant = { λ kept. IsRoom R.meaning A.stands V.disk (record {
      world = kept.both.world;
      tables = kept.both.tables;
      journals = kept.journals;
      vols = kept.vols;
      causes = kept.causes;
    }) kept.counted };
}

impl<R: Rules, A: Application, V: Volumes> KeptWorld<R, A, V> {
    ghost use Rattle.std.specs.Prelude.{◌≡◌, ◌≤◌, ◌-◌, [], slice_get, None, Some, true, false, IfOk, OnErr, IsErrOf};
    ghost use Rattle.std.specs.Option.{option_copied, option_map};
    ghost use Rattle.ale_volumes.specs.Clock.{LeavesOnly, KeepsOthers};
    ghost use Rattle.ale_volumes.specs.Faults.{CountsFault};
    ghost use Rattle.unit_codec.specs.Entries.{entry_with};
    ghost use Rattle.unit_codec.specs.Condition.{IsWritable};
    ghost use Rattle.unit_landscape.specs.Writes.{size_with};
    ghost use Rattle.unit_journal.specs.Settled.{IsBeforeOrAfter};
    ghost use Rattle.trfc_protocol.specs.Worlds.{log_of, is_up, committed_by, with_fall, with_claim, without_claim};
    ghost use Rattle.trfc_protocol.specs.Safe.{AreApart};
    ghost use Rattle.trfc_protocol.specs.declared.held.HeldKind.TheVariants.{Direct};
    ghost use Rattle.plain_queues.specs.LogQueues.{HaveOneSender, units_of};
    ghost use Rattle.system_tables.specs.Tables.{TablesOf};
    ghost use Rattle.unit_landscape.specs.Claims.{kind_of, without_last_claim};
    ghost use Rattle.unit_landscape.specs.InStep.{AreInStepWith};
    ghost use Rattle.unit_journal.specs.OnDisk.{next_moment, moments_at, entries_at};
    ghost use Rattle.unit_journal.specs.Changes.{with_moment};
    ghost use Rattle.unit_landscape.specs.LogAnswers.{first_to_go, may_go_at, KeepsVolumes};
    ghost use Rattle.unit_landscape.specs.KeptWorlds.{IsKept, kept_of, cause_at};
    ghost use Rattle.unit_landscape.specs.Causes.{with_cause, told_by, is_of_up};
    ghost use Rattle.unit_landscape.specs.AppendEnds.{AppendedAs, FullAs, JournalsAs, UnchangedAs, IsToAppend};

    /// A world that is kept, of one whose tables are in step with it, whose volumes hold its logs, and whose systems are all up.
    pub(crate) fn new(
        alloc: Global,
        both: WorldTables<R, A>,
        journals: SystemJournals,
        vols: V,
    ) -> KeptWorld<R, A, V>
        requires { IsKept R.meaning A.stands V.disk (kept_of both journals vols) }
        ensures { result ≡ kept_of both journals vols }
    {
        let counted = Counted::of(both.world.systems.as_slice());
        KeptWorld {
            alloc,
            both,
            journals,
            vols,
            causes: [Cause::Up; 16],
            counted,
        }
    }

    /// The world. The tables are in step with it, and the volumes hold its logs.
    pub(crate) fn world(&self) -> &World<R>
        ensures world { result.now ≡ self.now.world }
        ensures kept { IsKept R.meaning A.stands V.disk self.now }
    {
        &self.both.world
    }

    /// Appends a record to the log of a system that is up, with the units that it commits: to its volume, and to the tables of its
    /// system, with the number of the claim that it ends and what was made for the application.
    ///
    /// After `Full` nothing has changed, and after `Before` nothing but perhaps what lies behind the log on the volume. After every
    /// other error the system is down, and all claims are gone.
    pub(crate) fn append(
        &mut self,
        system: SystemNo,
        next: Record,
        more: &[AleUnit],
        claim: Option<u64>,
        extra: A::Extra,
    ) -> Result<(), AppendEnd>
        requires can { IsToAppend R.meaning A.goes_with self.old system next more.now claim extra }

        // What the world is afterwards.
        ensures did { AppendedAs self.old.world self.new.world system next claim result }
        ensures journals { JournalsAs (system - 1) self.old.journals self.new.journals result }
        ensures unchanged { UnchangedAs self.old self.new result }
        ensures causes { self.new.causes ≡ told_by self.old.causes system result }

        // When the volume is too small, and how long it would be; unless memory ran out.
        ensures full { FullAs (system - 1) self.old.journals (log_of self.old.world system) next result }

        // A crash at any moment of the call leaves of the system's volume the log, or the log and the record; of others what it left.
        ensures any_moment { V.disk.told → LeavesOnly V.disk self.old.vols self.new.vols (system - 1)
            (IsBeforeOrAfter (entries_at self.old.journals (system - 1) (log_of self.old.world system)) (entry_with (next_moment self.old.journals (system - 1)) next)) }
        ensures others { V.disk.told → KeepsOthers V.disk self.old.vols self.new.vols (system - 1) }
        ensures faults { CountsFault (IsErrOf result AppendEnd.Volume) (V.disk.faults self.old.vols) (V.disk.faults self.new.vols) (system - 1) }
    {
        let adds = Adds::of(&next);
        let ended = add(
            self.alloc,
            &mut self.both,
            &mut self.journals,
            &mut self.vols,
            system,
            next,
            more,
            claim,
            extra,
        );
        tell(&mut self.causes, system, &ended);
        let records = self.both.world.log(system).len();
        self.counted.note(system, adds, records, &ended);
        ended
    }

    /// The log of a system. It is empty where there is no system of this number.
    pub fn log(&self, system: SystemNo) -> &[Record]
        ensures { result.now ≡ log_of self.now.world system }
    {
        self.both.world.log(system)
    }

    /// The volumes.
    pub fn into_volumes(self) -> V
        ensures { result ≡ self.vols }
    {
        let KeptWorld { vols, .. } = self;
        vols
    }

    /// The application's tables of a system. None exactly where the landscape has no such system.
    pub(crate) fn application(&self, system: SystemNo) -> Option<&A>
        ensures { option_copied result ≡ option_map (λ (its : TablesOf A). its.application) (slice_get self.now.tables (system - 1)) }
    {
        match self.both.tables.get(system.get() as usize - 1) {
            Some(its) => Some(its.application()),
            None => None,
        }
    }

    /// The moments of the entries of a system's log, oldest first: none of them where there is no such system.
    pub(crate) fn moments(&self, system: SystemNo) -> &[Option<u64>]
        ensures { result.now ≡ moments_at self.now.journals (system - 1) }
    {
        self.journals.moments(system)
    }

    /// How long the volume of a system that is up would be with a record behind its log, in bytes. It writes nothing.
    pub(crate) fn size_with(&self, system: SystemNo, next: &Record) -> Result<u64, OutOfMemory>
        requires up { is_up self.now.world system ≡ true }
        requires writable { IsWritable next.now }
        ensures { IfOk result (λ size. size ≡ size_with self.now system next.now) }
    {
        self.journals.size_with(system, next)
    }

    /// Sets the moment with which records are written from now on; `None` where none is known.
    pub(crate) fn set_moment(&mut self, moment: Option<u64>)
        ensures { self.new ≡ record self.old { journals = with_moment moment self.old.journals } }
    {
        self.journals.set_moment(moment);
    }

    /// Why a system is down, if it is.
    pub(crate) fn cause(&self, system: SystemNo) -> Cause
        ensures { result ≡ cause_at self.now system }
    {
        self.causes[system.get() as usize - 1]
    }

    /// Claims the unit of this id, which is the first that may go in a direction at a system that is up, and gives the number of the claim.
    /// After an `Err` nothing has changed.
    pub(crate) fn claim_next(
        &mut self,
        system: SystemNo,
        way: Way,
        tid: Tid,
    ) -> Result<u64, OutOfMemory>
        requires up { is_up self.old.world system ≡ true }
        requires one { HaveOneSender way (units_of way (committed_by (R.meaning self.old.world.rules) self.old.world system) (log_of self.old.world system)) }
        requires first { first_to_go (R.meaning self.old.world.rules) self.old.world system way ≡ Some tid }
        requires may { may_go_at (R.meaning self.old.world.rules) self.old.world system way tid ≡ true }
        ensures world { IfOk result (λ number. (number ≡ self.old.world.next_number)
            × (self.new.world ≡ with_claim self.old.world tid system (kind_of way))) }
        ensures err { OnErr result (self.new ≡ self.old) }
        ensures volumes { KeepsVolumes self.old self.new }
    {
        self.both.claim_next(system, way, tid)
    }

    /// Claims a unit to be run as it arrives at a system, and gives the number of the claim. After an `Err` nothing has changed.
    pub(crate) fn claim_direct(&mut self, system: SystemNo, tid: Tid) -> Result<u64, OutOfMemory>
        ensures world { IfOk result (λ number. (number ≡ self.old.world.next_number)
            × (self.new.world ≡ with_claim self.old.world tid system Direct)) }
        ensures err { OnErr result (self.new ≡ self.old) }
        ensures tables { self.new.tables ≡ self.old.tables }
        ensures volumes { KeepsVolumes self.old self.new }
    {
        self.both.claim_direct(system, tid)
    }

    /// Gives up the claim of a number, where it stands.
    pub(crate) fn release(&mut self, number: u64)
        requires { AreApart self.old.world.claims }
        ensures world { self.new.world ≡ without_claim self.old.world number }
        ensures volumes { KeepsVolumes self.old self.new }
    {
        self.both.release(number);
    }

    /// Takes the claim back that was made last, of a run of a unit as it arrived, and its number with it.
    pub(crate) fn give_back(&mut self)
        requires number { 1 ≤ self.old.world.next_number }
        requires in_step { AreInStepWith A.stands R.meaning (without_last_claim self.old.world) self.old.tables }
        ensures world { self.new.world ≡ without_last_claim self.old.world }
        ensures tables { self.new.tables ≡ self.old.tables }
        ensures volumes { KeepsVolumes self.old self.new }
    {
        self.both.give_back();
    }

    /// Gives up all claims. It takes no memory.
    pub(crate) fn revoke(&mut self)
        requires { AreApart self.old.world.claims }
        ensures world { self.new.world ≡ record self.old.world { claims = [] } }
        ensures volumes { KeepsVolumes self.old self.new }
    {
        self.both.revoke(self.alloc);
    }

    /// A system that is up falls by this cause, and all claims are gone. Nothing is called on its volume. It takes no memory.
    pub(crate) fn fall(&mut self, system: SystemNo, cause: Cause)
        requires up { is_up self.old.world system ≡ true }
        requires apart { AreApart self.old.world.claims }
        requires cause { is_of_up cause ≡ false }
        ensures world { self.new.world ≡ with_fall self.old.world system None }
        ensures journals { self.new.journals ≡ self.old.journals }
        ensures vols { self.new.vols ≡ self.old.vols }
        ensures causes { self.new.causes ≡ with_cause self.old.causes system cause }
    {
        self.both.fall(self.alloc, system, None);
        self.causes[system.get() as usize - 1] = cause;
    }
}

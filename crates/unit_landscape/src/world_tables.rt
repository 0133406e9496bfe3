//! The world beside the tables of its systems, and what changes both.

ghost use Rattle.std.specs.Prelude.{◌≡◌, ◌≤◌, ◌-◌, length, slice_get, Some, true, false, OnOk, OnErr};
ghost use Rattle.std.specs.Option.{option_copied};
ghost use Rattle.trfc_protocol.specs.Worlds.{last_of, with_state};
ghost use Rattle.system_tables.specs.Tables.{TablesOf, entered, left};
ghost use Rattle.system_tables.specs.Noted.{Noted};
ghost use Rattle.system_tables.specs.CanNote.{CanNote};
ghost use Rattle.unit_landscape.specs.Changed.{ChangedAt};
ghost use Rattle.unit_landscape.specs.Claims.{kind_of};
ghost use Rattle.unit_landscape.specs.ClaimAnswers.{IsClaimedUnit, IsNextUnit};
ghost use Rattle.unit_landscape.specs.Reopening.{IsDown, state_reopened};

use crate::letting_go::{let_all_go, let_go};
use ale_base::{Items, OutOfMemory, SystemNo, Tid, Way};
use std::alloc::Global;
use std::mem;
use system_tables::{Application, SystemTables};
use trfc_protocol::{HeldKind, Rules, World};
use unit_core::{AleUnit, Record};

/// A world, and the tables of each of its systems, in the order of their numbers.
#[derive(Drop)]
pub(crate) struct WorldTables<R: Rules, A: Application> {
    /// The logs and the claims.
    pub(crate) world: World<R>,
    /// The tables. Those of the first system stand first.
    pub(crate) tables: Items<SystemTables<A>>,
}

impl<R: Rules, A: Application> WorldTables<R, A> {
    ghost use Rattle.std.specs.Prelude.{◌≡◌, ◌≤◌, ◌-◌, [], length, slice_get, slice_set, Some, true, IfOk, OnOk, OnErr};
    ghost use Rattle.std.specs.Option.{option_copied};
    ghost use Rattle.unit_core.specs.declared.records.Record.{Record};
    ghost use Rattle.trfc_protocol.specs.Worlds.{log_of, is_up, last_of, state_down, state_without_last, with_state, with_record, with_fall, with_claim, without_claim};
    ghost use Rattle.trfc_protocol.specs.Safe.{AreApart};
    ghost use Rattle.trfc_protocol.specs.declared.held.HeldKind.TheVariants.{Direct};
    ghost use Rattle.system_tables.specs.Tables.{TablesOf, entered, left};
    ghost use Rattle.system_tables.specs.Noted.{Noted};
    ghost use Rattle.unit_landscape.specs.Changed.{ChangedAt};
    ghost use Rattle.unit_landscape.specs.Claims.{kind_of, without_last_claim};
    ghost use Rattle.unit_landscape.specs.InStep.{AreInStep, AreInStepWith};
    ghost use Rattle.unit_landscape.specs.Joining.{without_named};
    ghost use Rattle.unit_landscape.specs.Noting.{IsToNote};
    ghost use Rattle.unit_landscape.specs.ClaimAnswers.{IsNextUnit};
    ghost use Rattle.unit_landscape.specs.Reopening.{IsDown, state_reopened};

    /// A record joins the log of a system, and the units that it commits join its table of units, before the record is written.
    /// After an `Err` all is as before.
    pub(crate) fn enter(
        &mut self,
        alloc: Global,
        system: SystemNo,
        next: Record,
        more: &[AleUnit],
    ) -> Result<(), OutOfMemory>
        requires within { system ≤ length self.old.tables }
        ensures world { OnOk result (self.new.world ≡ with_record self.old.world system next) }
        ensures entered { OnOk result (ChangedAt (λ before now. now ≡ entered more.now before) (system - 1) self.old.tables self.new.tables) }
        ensures err { OnErr result (self.new ≡ self.old) }
    {
        self.world.append(system, next)?;
        match enter_units(&mut self.tables, system, more) {
            Ok(()) => Ok(()),
            Err(short) => {
                let _ = self.world.take_back(alloc, system);
                Err(short)
            }
        }
    }

    /// The last record of a system's log.
    pub(crate) fn last(&self, system: SystemNo) -> Option<&Record>
        ensures { option_copied result ≡ last_of (log_of self.now.world system) }
    {
        last_of(self.world.log(system))
    }

    /// How many units a system committed.
    pub(crate) fn count(&self, system: SystemNo) -> usize
        requires { system ≤ length self.now.tables }
        ensures { (its : TablesOf A) → slice_get self.now.tables (system - 1) ≡ Some its → result ≡ length its.units }
    {
        self.tables[system.get() as usize - 1].count()
    }

    /// Takes the last record of a system's log back, and gives it; of its units the first ones stay, as many as this.
    pub(crate) fn leave(&mut self, alloc: Global, system: SystemNo, count: usize) -> Option<Record>
        requires within { system ≤ length self.old.tables }
        ensures world { self.new.world ≡ with_state self.old.world system state_without_last }
        ensures last { result ≡ last_of (log_of self.old.world system) }
        ensures left { ChangedAt (λ before now. now ≡ left count before) (system - 1) self.old.tables self.new.tables }
    {
        leave_units(&mut self.tables, system, count);
        self.world.take_back(alloc, system)
    }

    /// The last record of a system's log is noted in its tables, with the units that it commits, the number of the claim that it
    /// ends, and what was made for the application. The claim goes from the world. After an `Err` the world is as before, and of
    /// the tables of this system the units alone are known.
    pub(crate) fn note(
        &mut self,
        alloc: Global,
        system: SystemNo,
        more: &[AleUnit],
        claim: Option<u64>,
        extra: A::Extra,
    ) -> Result<(), OutOfMemory>
        requires within { system ≤ length self.old.tables }
        requires can { IsToNote (log_of self.old.world system) more.now claim (system - 1) self.old.tables }
        ensures world { OnOk result (self.new.world ≡ without_named self.old.world claim) }
        ensures noted { (next : Record) → last_of (log_of self.old.world system) ≡ Some next
            → OnOk result (ChangedAt (Noted A.stands (λ application log. A.goes_with application log next extra) next more.now) (system - 1) self.old.tables self.new.tables) }
        ensures err { OnErr result (self.new.world ≡ self.old.world) }
        ensures units { ChangedAt (λ before now. now.units ≡ before.units) (system - 1) self.old.tables self.new.tables }
    {
        let Some(next) = last_of(self.world.log(system)) else {
            // The record was written before it is noted.
            unreachable!()
        };
        note_at(&mut self.tables, alloc, system, next, more, claim, extra)?;
        if let Some(number) = claim {
            self.world.release(number);
        }
        Ok(())
    }

    /// Claims the unit of this id, which is next in a direction at a system, and gives the number of the claim. After an `Err` nothing has
    /// changed.
    pub(crate) fn claim_next(
        &mut self,
        system: SystemNo,
        way: Way,
        tid: Tid,
    ) -> Result<u64, OutOfMemory>
        requires up { is_up self.old.world system ≡ true }
        requires in_step { AreInStepWith A.stands R.meaning self.old.world self.old.tables }
        requires next { (its : TablesOf A) → slice_get self.old.tables (system - 1) ≡ Some its → IsNextUnit way tid its }
        ensures world { IfOk result (λ number. (number ≡ self.old.world.next_number)
            × (self.new.world ≡ with_claim self.old.world tid system (kind_of way))) }
        ensures err { OnErr result (self.new ≡ self.old) }
        ensures in_step { AreInStepWith A.stands R.meaning self.new.world self.new.tables }
    {
        let number = self.world.next_number;
        self.world.claim(tid, system, kind_of(way))?;
        claim_next(&mut self.tables, system, way, tid, number);
        Ok(number)
    }

    /// Claims a unit to be run as it arrives at a system. No table knows of such a claim. After an `Err` nothing has changed.
    pub(crate) fn claim_direct(&mut self, system: SystemNo, tid: Tid) -> Result<u64, OutOfMemory>
        requires in_step { AreInStepWith A.stands R.meaning self.old.world self.old.tables }
        ensures world { IfOk result (λ number. (number ≡ self.old.world.next_number)
            × (self.new.world ≡ with_claim self.old.world tid system Direct)) }
        ensures err { OnErr result (self.new ≡ self.old) }
        ensures tables { self.new.tables ≡ self.old.tables }
        ensures in_step { AreInStepWith A.stands R.meaning self.new.world self.new.tables }
    {
        let number = self.world.next_number;
        self.world.claim(tid, system, HeldKind::Direct)?;
        Ok(number)
    }

    /// Gives up the claim of a number, where it stands.
    pub(crate) fn release(&mut self, number: u64)
        requires apart { AreApart self.old.world.claims }
        requires in_step { AreInStepWith A.stands R.meaning self.old.world self.old.tables }
        ensures world { self.new.world ≡ without_claim self.old.world number }
        ensures in_step { AreInStepWith A.stands R.meaning self.new.world self.new.tables }
    {
        let Some(held) = self.world.claim_of(number) else {
            return;
        };
        let_go(&self.world, &mut self.tables, *held);
        self.world.release(number);
    }

    /// Takes the claim back that was made last, and its number with it. The tables are as before, so it is one that no table knows of.
    pub(crate) fn give_back(&mut self)
        requires { 1 ≤ self.old.world.next_number }
        ensures world { self.new.world ≡ without_last_claim self.old.world }
        ensures tables { self.new.tables ≡ self.old.tables }
    {
        let last = self.world.claims.len().saturating_sub(1);
        self.world.claims.truncate(last);
        self.world.next_number -= 1;
    }

    /// Gives up all claims. It takes no memory.
    pub(crate) fn revoke(&mut self, alloc: Global)
        requires apart { AreApart self.old.world.claims }
        requires in_step { AreInStepWith A.stands R.meaning self.old.world self.old.tables }
        ensures world { self.new.world ≡ record self.old.world { claims = [] } }
        ensures in_step { AreInStepWith A.stands R.meaning self.new.world self.new.tables }
    {
        let claims = mem::replace(&mut self.world.claims, Items::new(alloc));
        let_all_go(&self.world, &mut self.tables, claims.as_slice());
    }

    /// A system that is down is up, with the record that it was writing where that was found, else without; and these are its tables. After
    /// an `Err` all is as before.
    pub(crate) fn reopen(
        &mut self,
        system: SystemNo,
        is_found: bool,
        tables: SystemTables<A>,
    ) -> Result<(), OutOfMemory>
        requires down { IsDown self.old.world system }
        requires within { system ≤ length self.old.tables }
        ensures world { OnOk result (self.new.world ≡ with_state self.old.world system (state_reopened is_found)) }
        ensures tables { OnOk result (self.new.tables ≡ slice_set self.old.tables (system - 1) tables) }
        ensures err { OnErr result (self.new ≡ self.old) }
    {
        if is_found {
            self.world.open(system)?;
        } else {
            come_up(&mut self.world, system);
        }
        *self.tables.at_mut(system.get() as usize - 1) = tables;
        Ok(())
    }

    /// A system falls, with the record that it may find at its opening, and all claims are gone. Its tables are of no use from then
    /// on, but for its units: so nothing is asked of them. It takes no memory.
    pub(crate) fn fall(&mut self, alloc: Global, system: SystemNo, rest: Option<Record>)
        requires apart { AreApart self.old.world.claims }
        requires in_step { AreInStep A.stands (R.meaning self.old.world.rules) (with_state self.old.world system (state_down rest)).systems
            self.old.world.claims self.old.tables }
        ensures world { self.new.world ≡ with_fall self.old.world system rest }
        ensures in_step { AreInStepWith A.stands R.meaning self.new.world self.new.tables }
    {
        let claims = mem::replace(&mut self.world.claims, Items::new(alloc));
        self.world.fall(alloc, system, rest);
        let_all_go(&self.world, &mut self.tables, claims.as_slice());
    }
}

/// A system is up with the log that it has. What it was writing as it fell was not found, and is lost. It takes no memory.
fn come_up<R: Rules>(world: &mut World<R>, system: SystemNo)
    requires { IsDown world.old system }
    ensures { world.new ≡ with_state world.old system (state_reopened false) }
{
    let state = world.systems.at_mut(system.get() as usize - 1);
    state.up = true;
    state.rest = None;
}

/// The last record of a log.
fn last_of(log: &[Record]) -> Option<&Record>
    ensures { option_copied result ≡ last_of log.now }
{
    log.get(log.len().saturating_sub(1))
}

/// The kind of a claim on a unit that waits in the queues of a direction.
fn kind_of(way: Way) -> HeldKind
    ensures { result ≡ kind_of way }
{
    match way {
        Way::Outgoing => HeldKind::Out,
        Way::Incoming => HeldKind::In,
    }
}

/// Units join the table of units of a system.
fn enter_units<A: Application>(
    tables: &mut Items<SystemTables<A>>,
    system: SystemNo,
    more: &[AleUnit],
) -> Result<(), OutOfMemory>
    requires { system ≤ length tables.old }
    ensures entered { OnOk result (ChangedAt (λ before now. now ≡ entered more.now before) (system - 1) tables.old tables.new) }
    ensures err { OnErr result (tables.new ≡ tables.old) }
{
    let at = system.get() as usize - 1;
    tables.at_mut(at).enter(more)
}

/// Of the units of a system the first ones stay, as many as this.
fn leave_units<A: Application>(tables: &mut Items<SystemTables<A>>, system: SystemNo, count: usize)
    requires { system ≤ length tables.old }
    ensures { ChangedAt (λ before now. now ≡ left count before) (system - 1) tables.old tables.new }
{
    let at = system.get() as usize - 1;
    tables.at_mut(at).leave(count);
}

/// A record is noted in the tables of a system.
fn note_at<A: Application>(
    tables: &mut Items<SystemTables<A>>,
    alloc: Global,
    system: SystemNo,
    next: &Record,
    more: &[AleUnit],
    claim: Option<u64>,
    extra: A::Extra,
) -> Result<(), OutOfMemory>
    requires within { system ≤ length tables.old }
    requires can { (its : TablesOf A) → slice_get tables.old (system - 1) ≡ Some its → CanNote next.now more.now claim its }
    ensures noted { OnOk result (ChangedAt (Noted A.stands (λ application log. A.goes_with application log next.now extra) next.now more.now) (system - 1) tables.old tables.new) }
    ensures units { ChangedAt (λ before now. now.units ≡ before.units) (system - 1) tables.old tables.new }
{
    let at = system.get() as usize - 1;
    tables.at_mut(at).note(alloc, next, more, claim, extra)
}

/// The unit that is next in a direction is claimed in the queues of a system; it is the one of this id.
fn claim_next<A: Application>(
    tables: &mut Items<SystemTables<A>>,
    system: SystemNo,
    way: Way,
    tid: Tid,
    number: u64,
)
    requires within { system ≤ length tables.old }
    requires next { (its : TablesOf A) → slice_get tables.old (system - 1) ≡ Some its → IsNextUnit way tid its }
    ensures { ChangedAt (IsClaimedUnit way tid number) (system - 1) tables.old tables.new }
{
    let _tid = tid;
    let at = system.get() as usize - 1;
    let _claim = tables.at_mut(at).claim_next(way, number);
}

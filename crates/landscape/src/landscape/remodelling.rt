//! A model comes into force at the systems of a landscape.

ghost use Rattle.std.specs.Prelude.{◌≡◌};
ghost use Rattle.unit_landscape.specs.declared.beginning.TheConstants.{MOST_TEXT};

use super::Landscape;
use crate::bar::Bar;
use crate::bringing::{bring, fits, record_of, unkept, waiting};
use crate::commands::ended;
use crate::wanted::Brings;
use ale_base::SystemNo;
use ale_volumes::Volumes;
use dist_model::Model;
use document_state::Made;
use said_models::differs;
use status_log::Refusal;
use std::sync::Arc;
use trfc_protocol::Rules;
use unit_core::Record;

impl<V: Volumes> Landscape<V> {
    ghost use Rattle.std.specs.Prelude.{◌≡◌, ◌≤◌, ◌⊎◌, List, ℕ, [], Some, true, length, IfOk};
    ghost use Rattle.std.specs.Arc.{arc_value};
    ghost use Rattle.std.specs.List.{list_all};
    ghost use Rattle.said_models.specs.Said.{said};
    ghost use Rattle.unit_core.specs.declared.records.Record.TheVariants as log;
    ghost use Rattle.unit_codec.specs.Condition.{IsWritable};
    ghost use Rattle.trfc_protocol.specs.Legal.{is_model};
    ghost use Rattle.trfc_protocol.specs.Worlds.{is_up};
    ghost use Rattle.unit_landscape.specs.LogAnswers.{KeepsVolumes};
    ghost use Rattle.unit_landscape.specs.Writes.{WritesOnly};
    ghost use Rattle.unit_landscape.specs.Appending.{at};
    ghost use Rattle.document_state.specs.declared.made.Made.TheVariants as made;
    ghost use Rattle.landscape.specs.Asked.{asked_model};
    ghost use Rattle.landscape.specs.Carried.{CarriedAs, DiskAsked, asked_at, operator_event};
    ghost use Rattle.landscape.specs.Crashes.{LeavesSoundLogs};
    ghost use Rattle.landscape.specs.Remodelled.{MayAs, asks_any, numbers_of, refused_model};
    ghost use Rattle.landscape.specs.steps.Barred.{barred_at, first_barred};
    ghost use Rattle.landscape.specs.steps.Ready.{EndedAs, IsReady, ReadyModelOrNone};

    /// Whether a model may come into force at all systems at which another text is in force. Nothing changes.
    ///
    /// `N2` comes exactly where a system is down. Else `N15` comes where a model in force has a part that this one does not keep, with
    /// its path; else `N13` where documents wait to be dispatched, with their number; else `N10` where a volume has no room for the
    /// record that brings the text, with the length that it would have. Each names what is so at the first of these systems at which it
    /// is, and comes before the next is looked for at any.
    pub fn may_remodel(&self, model: &Model, text: &[u8]) -> Result<(), Refusal>
        requires says { said text.now ≡ Some model.now }
        requires short { length text.now ≤ MOST_TEXT }
        ensures { MayAs (refused_model self.now model.now text.now) result }
    {
        if !self.all_up() {
            return Err(Refusal::N2);
        }
        let next = record_of(self.alloc, text)?;
        self.none_barred(Bar::Unkept, model, text, &next)?;
        self.none_barred(Bar::Waiting, model, text, &next)?;
        self.none_barred(Bar::Full, model, text, &next)
    }

    /// A model comes into force at a system, where the text in force is another one. It answers whether it was. The model is that of the
    /// text, so that the text is not read again.
    ///
    /// `N2` comes exactly where the system is down; `N15` else where the text is another one and the model in force has a part that this
    /// one does not keep; `N13` else where documents wait to be dispatched; `N10` else where the journal is full.
    pub fn remodel(
        &mut self,
        system: SystemNo,
        model: &Arc<Model>,
        text: &[u8],
    ) -> Result<bool, Refusal>
        requires says { said text.now ≡ Some (arc_value model.now) }
        requires short { length text.now ≤ MOST_TEXT }
        requires unclaimed { self.old.world.claims ≡ [] }
        ensures ends { CarriedAs V.disk self.old self.new system (operator_event system)
            (asked_at self.old.world system (λ log. asked_model log (arc_value model.now) text.now))
            (λ took. took ≡ asks_any (asked_at self.old.world system (λ log. asked_model log (arc_value model.now) text.now))) result }
        ensures disk { DiskAsked V.disk self.old self.new system
            (asked_at self.old.world system (λ log. asked_model log (arc_value model.now) text.now)) }
        ensures sound { LeavesSoundLogs V.disk self.old self.new }
    {
        let Some(wanted) = self.judged_model(system, model, text)? else {
            return Ok(false);
        };
        self.bring(system, wanted)?;
        Ok(true)
    }

    /// What `remodel` asks for.
    fn judged_model(
        &self,
        system: SystemNo,
        model: &Arc<Model>,
        text: &[u8],
    ) -> Result<Option<Brings>, Refusal>
        requires says { said text.now ≡ Some (arc_value model.now) }
        requires short { length text.now ≤ MOST_TEXT }
        ensures judged { ReadyModelOrNone self.now.world system
            (asked_at self.now.world system (λ log. asked_model log (arc_value model.now) text.now)) result }
        ensures sound { LeavesSoundLogs V.disk self.now self.now }
    {
        let tables = self.up(system)?;
        bring(self.alloc, tables, self.units.log(system), model, text)
    }

    /// Appends the record that brings a model.
    fn bring(&mut self, system: SystemNo, wanted: Brings) -> Result<(), Refusal>
        requires ready { IsReady self.old.world system is_model wanted.next (made.Brought (Some wanted.model)) }
        requires unclaimed { self.old.world.claims ≡ [] }
        ensures done { EndedAs V.disk self.old self.new system (operator_event system) wanted.next result }
        ensures disk { KeepsVolumes self.old self.new ⊎ WritesOnly V.disk self.old self.new (at system wanted.next) }
        ensures sound { LeavesSoundLogs V.disk self.old self.new }
    {
        let _ = self.units.world();
        let Brings { next, model } = wanted;
        ended(self.units.operate(system, next, Made::Brought(Some(model))))
    }

    /// Whether all systems are up.
    fn all_up(&self) -> bool
        ensures { result ≡ list_all (is_up self.now.world) (numbers_of self.now.world) }
    {
        let world = self.units.world();
        for number in 0..world.rules.systems() {
            let Some(system) = SystemNo::of(number + 1) else {
                // There are 16 systems at most.
                unreachable!()
            };
            if !world.is_up(system) {
                return false;
            }
        }
        true
    }

    /// Whether no system at which another text is in force bars a model so. The first that does says why.
    fn none_barred(
        &self,
        bar: Bar,
        model: &Model,
        text: &[u8],
        next: &Record,
    ) -> Result<(), Refusal>
        requires up { list_all (is_up self.now.world) (numbers_of self.now.world) ≡ true }
        requires brings { next.now ≡ log.Model text.now }
        requires short { length text.now ≤ MOST_TEXT }
        ensures { MayAs (first_barred self.now model.now text.now bar) result }
    {
        let world = self.units.world();
        for number in 0..world.rules.systems() {
            let Some(system) = SystemNo::of(number + 1) else {
                // There are 16 systems at most.
                unreachable!()
            };
            if differs(text, world.log(system)) {
                self.barred(bar, system, model, next)?;
            }
        }
        Ok(())
    }

    /// Whether a system does not bar a model so.
    fn barred(
        &self,
        bar: Bar,
        system: SystemNo,
        model: &Model,
        next: &Record,
    ) -> Result<(), Refusal>
        requires up { is_up self.now.world system ≡ true }
        requires writable { IsWritable next.now }
        ensures { (text : List ℕ) → next.now ≡ log.Model text → MayAs (barred_at self.now model.now text bar system) result }
    {
        match bar {
            Bar::Unkept => unkept(self.alloc, self.up(system)?, model),
            Bar::Waiting => waiting(self.up(system)?),
            Bar::Full => fits(self.units.size_with(system, next)?),
        }
    }
}

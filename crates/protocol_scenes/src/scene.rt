//! A world to which events happen, and what it says of a unit.

use crate::fault::Fault;
use crate::listed_rules::ListedRules;
use crate::units::Lists;
use ale_base::{OutOfMemory, Tid};
use case_form::Text;
use std::alloc::Global;
use std::marker::Model;
use trfc_protocol::{Answer, Event, World, run_events, step};
use unit_core::AleUnit;

/// A world that is safe.
#[derive(Drop)]
pub(crate) struct Scene {
    world: World<ListedRules>,
}

impl Model for Scene {
    ghost use Rattle.trfc_protocol.specs.declared.world.World.{World};
    ghost use Rattle.protocol_scenes.specs.declared.listed_rules.ListedRules.{ListedRules};
    ghost use Rattle.protocol_scenes.specs.Worlds.{IsSafeWorld};

    ghost Value = { World ListedRules };

    ghost view = { λ scene. scene.world };

    ghost invariant = { λ scene. IsSafeWorld scene.world };
}

impl Scene {
    /// The world.
    pub(crate) fn world(&self) -> &World<ListedRules> {
        &self.world
    }

    /// The world at first of these units.
    pub(crate) fn first(alloc: Global, lists: &Lists) -> Result<Scene, Fault> {
        match ListedRules::of(lists.clone()?) {
            Some(rules) => Ok(Scene {
                world: World::start(alloc, rules)?,
            }),
            None => Err(Fault::Refused),
        }
    }

    /// The world after an event.
    pub(crate) fn after(self, alloc: Global, event: &Event) -> Result<Scene, OutOfMemory> {
        let Scene { world, .. } = self;
        let world = step(alloc, world, event)?;
        Ok(Scene { world })
    }

    /// The world after events that happen at once.
    pub(crate) fn after_all(self, alloc: Global, events: &[Event]) -> Result<Scene, OutOfMemory> {
        let Scene { world, .. } = self;
        let world = run_events(alloc, world, events)?;
        Ok(Scene { world })
    }

    /// Puts where a unit is offered, and how its arrival would be answered.
    pub(crate) fn put_unit(
        &self,
        alloc: Global,
        text: &mut Text,
        tid: Tid,
    ) -> Result<(), OutOfMemory> {
        match self.world.committed_unit(alloc, tid)? {
            Some(unit) => self.put_committed(alloc, text, &unit),
            None => text.put_line(b"not committed"),
        }
    }

    /// Puts where a unit is offered that was committed, and how its arrival would be answered.
    fn put_committed(
        &self,
        alloc: Global,
        text: &mut Text,
        unit: &AleUnit,
    ) -> Result<(), OutOfMemory> {
        if self.world.is_offered_outbound(alloc, unit.tid)? {
            text.put_line(b"offered at its sender")?;
        }
        if self
            .world
            .is_offered_inbound(alloc, unit.receiver, unit.tid)?
        {
            text.put_line(b"offered at its receiver")?;
        }
        if !self.world.may_arrive(alloc, unit)? {
            return text.put_line(b"may not arrive");
        }
        put_answer(text, self.world.answer_to(alloc, unit)?)
    }
}

fn put_answer(text: &mut Text, answer: Answer) -> Result<(), OutOfMemory> {
    match answer {
        Answer::Down => text.put_line(b"answer Down"),
        Answer::Known => text.put_line(b"answer Known"),
        Answer::Busy => text.put_line(b"answer Busy"),
        Answer::SysFail => text.put_line(b"answer SysFail"),
        Answer::Run => text.put_line(b"answer Run"),
        Answer::New => text.put_line(b"answer New"),
    }
}

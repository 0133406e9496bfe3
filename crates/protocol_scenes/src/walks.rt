//! Walks through the protocol by events that the dice choose, falls and openings among them. After each event the
//! exactly-once law is looked at plainly; where systems are down that may find a record, also as it is under a choice of what
//! is found.

use crate::choosing::event;
use crate::fault::Fault;
use crate::laws::{law_of, logs_found};
use crate::listed_rules::ListedRules;
use crate::listing::lengths_of;
use crate::scene::Scene;
use crate::units::Lists;
use crate::words::Words;
use ale_base::OutOfMemory;
use case_form::{Dice, Text};
use std::alloc::Global;
use trfc_protocol::{Event, World};
use unit_core::{AleUnit, Record};

/// How many walks there are, and of how many events; the first seed; and how many units have to be executed at least, and how
/// many falls have to leave a record.
#[derive(Clone, Copy)]
struct Plan {
    walks: u32,
    events: u32,
    seed: u32,
    least: u32,
    kept: u32,
}

/// Who walks, and what was seen.
#[derive(Drop)]
struct Walker<'a> {
    alloc: Global,
    lists: &'a Lists,
    units: Vec<&'a AleUnit>,
    dice: Dice,
    keeps_law: bool,
    executed: u32,
    kept: u32,
}

/// Walks as a line says, and puts what was seen.
pub(crate) fn put_walks(
    alloc: Global,
    text: &mut Text,
    lists: &Lists,
    words: &mut Words,
) -> Result<(), Fault> {
    let plan = read_plan(words)?;
    let mut walker = Walker::of(alloc, lists, plan.seed)?;
    let walked = walker.walk_all(plan);
    let seen = walker.put_seen(text, plan);
    drop(walker);
    walked?;
    Ok(seen?)
}

fn read_plan(words: &mut Words) -> Result<Plan, Fault> {
    let walks = words.number()?;
    let events = named(words, b"events")?;
    let seed = named(words, b"seed")?;
    let least = named(words, b"least")?;
    let kept = named(words, b"kept")?;
    Ok(Plan {
        walks,
        events,
        seed,
        least,
        kept,
    })
}

/// The number behind this word.
fn named(words: &mut Words, name: &'static [u8]) -> Result<u32, Fault> {
    words.choice(&[(name, ())], Fault::BadWalk)?;
    words.number()
}

impl<'a> Walker<'a> {
    fn of(alloc: Global, lists: &'a Lists, seed: u32) -> Result<Walker<'a>, OutOfMemory> {
        let mut units = Vec::new(alloc);
        for list in lists {
            for unit in list {
                units.push(unit)?;
            }
        }
        Ok(Walker {
            alloc,
            lists,
            units,
            dice: Dice::of(seed),
            keeps_law: true,
            executed: 0,
            kept: 0,
        })
    }

    fn walk_all(&mut self, plan: Plan) -> Result<(), Fault> {
        for _ in 0..plan.walks {
            self.walk(plan.events)?;
        }
        Ok(())
    }

    /// One walk.
    fn walk(&mut self, events: u32) -> Result<(), Fault> {
        let mut scene = Scene::first(self.alloc, self.lists)?;
        for _ in 0..events {
            scene = self.go_on(scene)?;
        }
        for state in &scene.world().systems {
            for record in &state.log {
                if matches!(record, Record::Execute { .. } | Record::Direct { .. }) {
                    self.executed = self.executed.saturating_add(1);
                }
            }
        }
        Ok(())
    }

    /// The scene after one more event of one of the units.
    fn go_on(&mut self, scene: Scene) -> Result<Scene, OutOfMemory> {
        let Some(unit) = self.dice.pick(self.units.as_slice()) else {
            return Ok(scene);
        };
        match event(self.alloc, unit, scene.world().next_number, &mut self.dice) {
            Some(event) => {
                let after = self.happen(scene, &event);
                drop(event);
                after
            }
            None => Ok(scene),
        }
    }

    /// The scene after an event, at which the law is looked at where a log has changed or a system fell.
    fn happen(&mut self, scene: Scene, event: &Event) -> Result<Scene, OutOfMemory> {
        let (lengths, falls) = (lengths_of(scene.world()), scene.world().falls);
        let after = scene.after(self.alloc, event)?;
        let fell = after.world().falls != falls;
        if fell && matches!(event, Event::Fall { kept: Some(_), .. }) {
            self.kept = self.kept.saturating_add(1);
        }
        if fell || lengths_of(after.world()) != lengths {
            self.look_at(after.world())?;
        }
        Ok(after)
    }

    /// Looks at the law as the logs are, and where systems may find a record, as they are with a choice of these.
    fn look_at(&mut self, world: &World<ListedRules>) -> Result<(), OutOfMemory> {
        self.look(world, 0)?;
        if world.systems.iter().any(|state| state.rest.is_some()) {
            let choice = self.dice.below(65_536);
            self.look(world, choice)?;
        }
        Ok(())
    }

    /// Looks at the law, where systems find their records by a choice.
    fn look(&mut self, world: &World<ListedRules>, choice: u32) -> Result<(), OutOfMemory> {
        let found = logs_found(self.alloc, world, choice)?;
        let law = law_of(self.alloc, self.lists, &found, None)?;
        self.keeps_law &= law.keep_all();
        Ok(())
    }

    /// Puts what was seen.
    fn put_seen(&self, text: &mut Text, plan: Plan) -> Result<(), OutOfMemory> {
        text.put_line(if self.keeps_law {
            b"no clause broken".as_slice()
        } else {
            b"a clause broken".as_slice()
        })?;
        put_count(text, self.executed, plan.least, b" units executed")?;
        put_count(text, self.kept, plan.kept, b" falls that left a record")
    }
}

/// Puts that there were enough of what is counted, or how many there were.
fn put_count(text: &mut Text, count: u32, least: u32, what: &[u8]) -> Result<(), OutOfMemory> {
    if count >= least {
        text.put(b"enough")?;
    } else {
        text.put_number(u64::from(count))?;
    }
    text.put_line(what)
}
